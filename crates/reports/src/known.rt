// A report on a book that adds up.
ghost use Rattle.book.specs.Memory.{Audited};
ghost use Rattle.reports.specs.Asking.{AsksKnown};

use super::{check_asked, filling};
use book::{Head, Report};
use refusal::Refusal;
use table::reading::Pieces;

// What is asked of the book, written to the room: checks 1 and 4 are the caller's.
#[tactic(auto, using(crate::proofs::Told::known_there, crate::proofs::Told::known_done))]
pub fn report_known(
    head: &Head,
    table: &[u32],
    asked: Report,
    room: &mut [u32],
) -> Result<(), Refusal>
    requires { Audited head.now table.now }
    ensures { AsksKnown head.now asked table.now room.old room.new result }
{
    check_asked(head.vessels, asked, room.len())?;
    let pieces = Pieces::of(table, head.pieces as usize);
    filling::fill(&pieces, head.vessels, asked, room);
    Ok(())
}
