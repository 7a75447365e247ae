// Reports: the weight by origin in a vessel, by vessel from an origin, and all of it. Each writes to room that the
// caller lends.
#![tactic(auto)]

ghost use Rattle.std.specs.Prelude.{◌≡◌};
ghost use Rattle.refusal.specs.Numbers.{first};
ghost use Rattle.refusal.specs.Refusals.{outcome_number};
ghost use Rattle.book.specs.declared.Report.TheVariants.{Held, Spread, Whole};
ghost use Rattle.book.specs.Reports.{asked_checks};
ghost use Rattle.reports.specs.Asking.{Judged, Asks};

use book::{Head, Reply, Report};
use ledger::audit;
use refusal::Refusal;
use table::reading::Pieces;

mod filling; // filling.rt: what a report adds up, in one pass over the pieces
pub mod known; // known.rt: a report on a book that adds up

// The checks after 1 and 4. What is asked is told by its variant, which is looked at once here and once where the room
// is filled.
#[tactic(auto, unfolding(book::specs::Reports::asked_checks))]
fn check_asked(vessels: u32, asked: Report, room: usize) -> Result<(), Refusal>
    ensures { outcome_number result ≡ first (asked_checks vessels room asked) }
{
    let row = vessels as usize;
    let needed = match asked {
        Report::Held(vessel) => {
            if vessels <= vessel {
                return Err(Refusal::NoVessel);
            }
            row
        }
        Report::Spread(origin, from, to) => {
            if vessels <= origin {
                return Err(Refusal::NoVessel);
            }
            if to < from {
                return Err(Refusal::SpanBack);
            }
            row
        }
        Report::Whole => row * row,
    };
    if room < needed {
        return Err(Refusal::ReportShort);
    }
    Ok(())
}

// All checks of a report.
#[tactic(auto, using(crate::proofs::Asked::asked_on))]
fn check(head: Head, table: &[u32], asked: Report, room: &[u32]) -> Result<(), Refusal>
    ensures { Judged head asked table.now room.now (outcome_number result) }
{
    audit::check_book(head, table)?;
    check_asked(head.vessels, asked, room.len())
}

// What is asked of the book, written to the room.
#[tactic(auto, using(crate::proofs::Asked::accepted))]
pub fn report(head: Head, table: &[u32], asked: Report, room: &mut [u32]) -> Reply
    ensures { Asks head asked table.now room.old room.new result }
{
    match check(head, table, asked, room) {
        Ok(()) => {
            let pieces = Pieces::of(table, head.pieces as usize);
            filling::fill(&pieces, head.vessels, asked, room);
            Reply { number: 0, head }
        }
        Err(why) => Reply {
            number: u32::from(why),
            head,
        },
    }
}

// The weight by origin in a vessel.
pub fn held(head: Head, table: &[u32], vessel: u32, room: &mut [u32]) -> Reply
    ensures { Asks head (Held vessel) table.now room.old room.new result }
{
    report(head, table, Report::Held(vessel), room)
}

// The weight in each vessel that was born at an origin from a minute to a minute.
pub fn spread(head: Head, table: &[u32], origin: u32, from: u32, to: u32, room: &mut [u32]) -> Reply
    ensures { Asks head (Spread origin from to) table.now room.old room.new result }
{
    report(head, table, Report::Spread(origin, from, to), room)
}

// The held reports of all vessels, one row behind the other, in one pass over the pieces.
pub fn whole(head: Head, table: &[u32], room: &mut [u32]) -> Reply
    ensures { Asks head Whole table.now room.old room.new result }
{
    report(head, table, Report::Whole, room)
}

// The same, row by row: each is made by the held report of its vessel. Not one function with `report`: they share
// `check`, and the step behind it is what differs; a trait for it would be longer than both.
#[tactic(auto, using(crate::proofs::Asked::accepted))]
pub fn whole_by_rows(head: Head, table: &[u32], room: &mut [u32]) -> Reply
    ensures { Asks head Whole table.now room.old room.new result }
{
    match check(head, table, Report::Whole, room) {
        Ok(()) => {
            let pieces = Pieces::of(table, head.pieces as usize);
            filling::fill_rows(&pieces, head.vessels, room);
            Reply { number: 0, head }
        }
        Err(why) => Reply {
            number: u32::from(why),
            head,
        },
    }
}
