// What can be posted to a book in memory, whatever keeps its pieces: a transfer, a lift and a tip, each by its checks
// and its motion, and the next head.
#![tactic(auto)]

ghost use Rattle.std.specs.Prelude.{◌≡◌, ◌≤◌};
ghost use Rattle.refusal.specs.Numbers.{first};
ghost use Rattle.refusal.specs.Refusals.{outcome_number};
ghost use Rattle.book.specs.Head.{most_vessels, Sized};
ghost use Rattle.book.specs.Motion.{of_head, motion};
ghost use Rattle.book.specs.Calls.{Posting, terms};
ghost use Rattle.book.specs.Memory.{Audited};
ghost use Rattle.motions.specs.Carrying.{Carriable};
ghost use Rattle.motions.specs.Posting.{Passing, PostsKnown};

use book::{Head, Motion};
use keeping::Keeping;
use refusal::Refusal;
use taking::Applied;

mod advance; // advance.rt: the head after a motion
pub mod balances; // balances.rt: the balances of a head
pub mod keeping; // keeping.rt: what keeps a book's pieces
mod scale; // scale.rt: lift and tip
mod transfers; // transfers.rt: a transfer

// What can be posted to a book: its checks after 1 and 4, and the motion that it is.
pub trait Posting: Copy {
    ghost asked: { Self → Posting };

    // The first of its checks that applies.
    fn check(self, head: &Head) -> Result<(), Refusal>
        requires { head.now.vessels ≤ most_vessels }
        ensures { outcome_number result ≡ first ((terms (asked self)).checks (of_head head.now)) };

    // Its motion, where no check applies.
    fn motion(self, head: &Head) -> Motion
        requires few_vessels { head.now.vessels ≤ most_vessels }
        requires sized { Sized head.now }
        requires passed { first ((terms (asked self)).checks (of_head head.now)) ≡ 0 }
        ensures motion { result ≡ motion (terms (asked self)) (of_head head.now) }
        ensures carriable { Carriable head.now result };
}

// A posting to a book that is known to add up, whatever keeps its pieces: checks 1 and 4 are the caller's.
pub fn post_known<K: Keeping, P: Posting>(
    head: &mut Head,
    table: &mut [u32],
    keeping: &mut K,
    p: P,
) -> Result<Applied, Refusal>
    requires known { Audited head.old (K.written keeping.old table.old) }
    requires kept { K.keeps keeping.old head.old table.old }
    requires carried { Passing (P.asked p) head.old (K.carries head.old) }
    ensures posts { PostsKnown (P.asked p) head.old head.new
        (K.written keeping.old table.old) (K.written keeping.new table.new) result }
    ensures kept { K.keeps keeping.new head.new table.new }
    ensures leaves { K.leaves table.old table.new }
{
    p.check(head)?;
    let m = p.motion(head);
    let moved = keeping.carry(head, table, m).ok_or(Refusal::TableFull)?;
    advance::advance(head, m, moved);
    Ok(moved)
}
