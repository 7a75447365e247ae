// The movements of a sheet, and those that the writer is given.
ghost use Rattle.std.specs.Prelude.{◌≡◌, ◌≤◌, map};
ghost use Rattle.refusal.specs.Numbers.{first};
ghost use Rattle.refusal.specs.Refusals.{outcome_number};
ghost use Rattle.book.specs.Transfer.{most_age};
ghost use Rattle.fields.specs.Movements.{entry_in, given_in, entry_checks, given_checks, entries_checks};

use crate::bytes::{read8, read16, read32};
use crate::layout::{ENTRY_SIZE, GIVEN_SIZE};
use refusal::Refusal;

// A movement as the sheet has it. The age that the writer is given may be too large for its two bytes.
#[derive(Clone, Copy)]
pub struct Entry {
    pub source: u32,
    pub destination: u32,
    pub age: u32,
    pub minute: u32,
    pub weight: u32,
}

// The movement in its twelve bytes.
pub fn read_entry(bytes: &[u8; ENTRY_SIZE]) -> Entry
    ensures { (result ≡ entry_in bytes.now) × (result.age ≤ most_age) }
{
    Entry {
        source: read8(bytes, 0),
        destination: read8(bytes, 1),
        age: read16(bytes, 2),
        minute: read32(bytes, 4),
        weight: read32(bytes, 8),
    }
}

// The movement that the writer is given in five numbers.
pub fn given(five: &[u32; GIVEN_SIZE]) -> Entry
    ensures { result ≡ given_in five.now }
{
    let [source, destination, minute, weight, age] = *five;
    Entry {
        source,
        destination,
        age,
        minute,
        weight,
    }
}

// The first check that a movement of a sheet fails.
fn check_entry(e: Entry, vessels: u32) -> Result<(), Refusal>
    ensures { outcome_number result ≡ first (entry_checks vessels e) }
{
    if e.source >= vessels || e.destination >= vessels {
        return Err(Refusal::NoVessel);
    }
    Ok(())
}

// The first check that a movement given fails.
fn check_given(e: Entry, vessels: u32) -> Result<(), Refusal>
    ensures { outcome_number result ≡ first (given_checks vessels e) }
{
    if e.age > book::MOST_AGE {
        return Err(Refusal::AgeOver);
    }
    check_entry(e, vessels)
}

// The first check that a movement of a sheet fails, of all.
pub fn check_entries(entries: &[[u8; ENTRY_SIZE]], vessels: u32) -> Result<(), Refusal>
    ensures { outcome_number result ≡ first (entries_checks (entry_checks vessels) (map entry_in entries.now)) }
{
    for bytes in entries {
        check_entry(read_entry(bytes), vessels)?;
    }
    Ok(())
}

// The first check that a movement given fails, of all.
pub fn check_all_given(all: &[[u32; GIVEN_SIZE]], vessels: u32) -> Result<(), Refusal>
    ensures { outcome_number result ≡ first (entries_checks (given_checks vessels) (map given_in all.now)) }
{
    // As in `check_entries`: one function of the two would be told the read and the check, and they are the whole loop.
    for five in all {
        check_given(given(five), vessels)?;
    }
    Ok(())
}
