// The round trip of a movement sheet: what was read is written again. proofs/RoundTrip.antt has it of both ways.
ghost use Rattle.std.specs.Prelude.{◌≡◌, ◌++◌, length, map, drop};
ghost use Rattle.refusal.specs.Refusals.{outcome_number};
ghost use Rattle.fields.specs.Movements.{entry_numbers};
ghost use Rattle.sheet.specs.Sheet.{movements_of, entries_read};
ghost use Rattle.writing.specs.Rewriting.{rewrite_number, rewritten};

use fields::entries::Entry;
use fields::layout::{GIVEN_SIZE, MOST_MOVEMENTS};
use refusal::Refusal;
use sheet::Sheet;

// The numbers of a movement, as the writer is given them.
fn entry_numbers(e: Entry) -> [u32; GIVEN_SIZE]
    ensures { result ≡ entry_numbers e }
{
    [e.source, e.destination, e.minute, e.weight, e.age]
}

// Takes the numbers of each movement of a sheet: there is room for those of any.
fn take_numbers(sheet: &Sheet, taken: &mut [[u32; GIVEN_SIZE]; MOST_MOVEMENTS])
    ensures { taken.new ≡ map entry_numbers (entries_read sheet.now) ++ drop (movements_of sheet.now) taken.old }
{
    for i in 0..sheet.header().movements {
        taken[i as usize] = entry_numbers(sheet.movement(i));
    }
}

// Reads a sheet and writes what was read at the start of `out`: the same bytes, byte for byte.
pub fn rewrite(sheet: &[u8], out: &mut [u8]) -> Result<(), Refusal>
    ensures number { outcome_number result ≡ rewrite_number sheet.now (length out.old) }
    ensures bytes { out.new ≡ rewritten sheet.now out.old }
{
    let known = Sheet::read(sheet)?;
    let header = known.header();
    let mut taken = [[0u32; GIVEN_SIZE]; MOST_MOVEMENTS];
    take_numbers(&known, &mut taken);
    let given = taken[..header.movements as usize].as_flattened();
    crate::try_write(header.rule, header.vessels, known.names(), given, out)
}
