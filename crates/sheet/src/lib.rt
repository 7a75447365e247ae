// The movement sheet: read, and asked for a movement or a name.
// Any bytes of any length may come in; a refusal has its number, and all else is 0 or empty.
#![tactic(auto)]

ghost use Rattle.std.specs.Prelude.{IfOk, ◌≡◌, ◌≤◌};
ghost use Rattle.refusal.specs.Refusals.{outcome_number};
ghost use Rattle.book.specs.Transfer.{most_age};
ghost use Rattle.sheet.specs.Answers.{reading, movement_asked, movement_of, name_number, NamePart};

use answer::{Movement, Reading};
use fields::entries::Entry;
use fields::layout::{NAME_SIZE, name_start};
pub use reader::Sheet;
use refusal::Refusal;

pub mod answer; // answer.rt: what reading a sheet and asking for a movement yield
mod header; // header.rt: the header, and what it must be
mod reader; // reader.rt: all checks of a sheet, in order, and a sheet that passed them as a value

// Reads a sheet: its rule, count of vessels and count of movements.
pub fn read(sheet: &[u8]) -> Reading
    ensures { result ≡ reading sheet.now }
{
    match Sheet::read(sheet) {
        Ok(known) => {
            let header = known.header();
            Reading {
                number: 0,
                rule: header.rule,
                vessels: header.vessels,
                movements: header.movements,
            }
        }
        Err(why) => Reading {
            number: u32::from(why),
            rule: 0,
            vessels: 0,
            movements: 0,
        },
    }
}

// The movement at an index, or why there is none.
#[tactic(auto, unfolding(crate::specs::Answers::asked_number))]
fn find_movement(sheet: &[u8], index: u32) -> Result<Entry, Refusal>
    ensures answer { movement_of result ≡ movement_asked sheet.now index }
    ensures accepted { IfOk result (λ e. e.age ≤ most_age) }
{
    Sheet::read(sheet)?.get(index).ok_or(Refusal::PastEnd)
}

// The movement at an index.
pub fn movement(sheet: &[u8], index: u32) -> Movement
    ensures answer { result ≡ movement_asked sheet.now index }
    ensures age { result.age ≤ most_age }
{
    match find_movement(sheet, index) {
        Ok(e) => Movement {
            number: 0,
            source: e.source,
            destination: e.destination,
            minute: e.minute,
            weight: e.weight,
            age: e.age,
        },
        Err(why) => Movement {
            number: u32::from(why),
            source: 0,
            destination: 0,
            minute: 0,
            weight: 0,
            age: 0,
        },
    }
}

// The first check that asking for a vessel's name fails.
#[tactic(auto, unfolding(crate::specs::Answers::asked_number))]
fn check_vessel(sheet: &[u8], vessel: u32) -> Result<(), Refusal>
    ensures { outcome_number result ≡ name_number sheet.now vessel }
{
    let known = Sheet::read(sheet)?;
    if vessel >= known.header().vessels {
        return Err(Refusal::NoVessel);
    }
    Ok(())
}

// The number of asking for a vessel's name: C has no `Result`.
pub fn name_number(sheet: &[u8], vessel: u32) -> u32
    ensures { result ≡ name_number sheet.now vessel }
{
    refusal::number(check_vessel(sheet, vessel))
}

// A vessel's name: that part of the sheet without its zeros, and on any refusal the empty part at the sheet's start.
// By places in the sheet: what is promised is where the part lies, and std's chunks do not tell.
pub fn name<'a>(sheet: &'a [u8], vessel: u32) -> &'a [u8]
    ensures { NamePart sheet.now vessel sheet.entry.ref_ptr result.now result.ref_ptr }
{
    match check_vessel(sheet, vessel) {
        Ok(()) => {
            let at = name_start(vessel);
            let count = fields::names::letter_count(&sheet[at..at + NAME_SIZE]);
            &sheet[at..at + count]
        }
        Err(_) => &sheet[0..0],
    }
}
