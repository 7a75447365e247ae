// Posting to a book whose pieces lie in a lent table: transfer, lift and tip.
#![tactic(auto)]

ghost use Rattle.std.specs.Prelude.{◌≡◌};
ghost use Rattle.book.specs.Calls.{enter, post, lift};
ghost use Rattle.motions.specs.Posting.{said, Posts, Tips};

use book::{Head, Lift, Reply, Tip, Transfer, Transferred};
use keeping::TableKeeping;
use ledger::audit;
use motions::Posting;
use refusal::Refusal;
use taking::Applied;

pub mod keeping; // keeping.rt: the lent table keeps the pieces

// A posting to any book whose pieces lie in the table.
fn post_checked<P: Posting>(head: &mut Head, table: &mut [u32], p: P) -> Result<Applied, Refusal>
    ensures { Posts head.old (enter (P.asked p)) table.old table.new (said head.new result) }
{
    audit::check_book(*head, table)?;
    motions::post_known(head, table, &mut TableKeeping::new(), p)
}

// What is answered to a posting that left this head. A refusal has its number, the head as it was, and all other
// numbers 0.
fn answer(head: Head, posted: Result<Applied, Refusal>) -> Transferred
    ensures { result ≡ said head posted }
{
    match posted {
        Ok(moved) => Transferred {
            number: 0,
            head,
            whole: moved.whole,
            split: moved.split,
            born: moved.born,
        },
        Err(why) => Transferred {
            number: u32::from(why),
            head,
            whole: 0,
            split: 0,
            born: 0,
        },
    }
}

// A posting to any book, with the head by value: C lends head and table each by itself.
fn post<P: Posting>(head: Head, table: &mut [u32], p: P) -> Transferred
    ensures { Posts head (enter (P.asked p)) table.old table.new result }
{
    let mut next = head;
    let posted = post_checked(&mut next, table, p);
    answer(next, posted)
}

// A transfer of weight from source to destination at a minute, with the age of what is born.
pub fn transfer(head: Head, table: &mut [u32], x: Transfer) -> Transferred
    ensures { Posts head (post x) table.old table.new result }
{
    post(head, table, x)
}

// Weight taken from a vessel onto the scale at a minute, with the age of what is born.
pub fn lift(head: Head, table: &mut [u32], x: Lift) -> Transferred
    ensures { Posts head (lift x) table.old table.new result }
{
    post(head, table, x)
}

// All that is on the scale tipped into a vessel at a minute.
#[tactic(auto, using(motions::proofs::Posted::tips))]
pub fn tip(head: Head, table: &mut [u32], y: Tip) -> Reply
    ensures { Tips head y table.old table.new result }
{
    post(head, table, y).into()
}
