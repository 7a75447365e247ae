// The balances of a head: one is read, and weight is moved from one to another.
ghost use Rattle.std.specs.Prelude.{◌≡◌, ◌<◌};
ghost use Rattle.book.specs.Head.{most_holders, balance_at, with_balance, shifted, Shiftable};

use book::{Head, SCALE};

// The balance of a holder.
#[tactic(auto, unfolding(book::specs::Head::balance_at))]
pub fn balance_at(head: &Head, holder: u32) -> u32
    requires { holder < most_holders }
    ensures { result ≡ balance_at head.now holder }
{
    if holder == SCALE {
        return head.scale;
    }
    head.balances[holder as usize]
}

// A holder has another balance.
#[tactic(auto, unfolding(book::specs::Head::with_balance))]
fn set_balance(head: &mut Head, holder: u32, weight: u32)
    requires { holder < most_holders }
    ensures { head.new ≡ with_balance head.old holder weight }
{
    if holder == SCALE {
        head.scale = weight;
        return;
    }
    head.balances[holder as usize] = weight;
}

// A holder gave weight and another received some: less, where the rest was born.
pub fn shift(head: &mut Head, source: u32, given: u32, destination: u32, received: u32)
    requires { Shiftable head.old source given destination received }
    ensures { head.new ≡ shifted head.old source given destination received }
{
    let left = balance_at(head, source) - given;
    set_balance(head, source, left);
    let raised = balance_at(head, destination) + received;
    set_balance(head, destination, raised);
}
