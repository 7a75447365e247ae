// Writing a movement sheet from a rule, names and numbers.
// Any numbers and bytes may come in; a refusal has its number, and writes nothing.
#![tactic(auto)]

ghost use Rattle.std.specs.Prelude.{◌≡◌, length};
ghost use Rattle.refusal.specs.Refusals.{outcome_number};
ghost use Rattle.writing.specs.Writing.{write_number, written};

use refusal::Refusal;
use writer::Draft;

pub mod rewriting; // rewriting.rt: what was read is written again
mod writer; // writer.rt: the checks of what is to be written, and its bytes

// Writes a sheet at the start of `out`; the bytes behind it remain, and a refusal writes nothing.
#[tactic(auto, using(crate::proofs::WriteLaws::put_fits, crate::proofs::WriteLaws::write_done))]
pub fn try_write(
    rule: u32,
    vessels: u32,
    names: &[u8],
    numbers: &[u32],
    out: &mut [u8],
) -> Result<(), Refusal>
    ensures number { outcome_number result ≡ write_number rule vessels names.now numbers.now (length out.old) }
    ensures bytes { out.new ≡ written rule vessels names.now numbers.now out.old }
{
    let draft = Draft {
        rule,
        vessels,
        names,
        numbers,
    };
    draft.check(out.len())?;
    draft.put(out);
    Ok(())
}

// The same, answered by a number: C has no `Result`.
pub fn write(rule: u32, vessels: u32, names: &[u8], numbers: &[u32], out: &mut [u8]) -> u32
    ensures number { result ≡ write_number rule vessels names.now numbers.now (length out.old) }
    ensures bytes { out.new ≡ written rule vessels names.now numbers.now out.old }
{
    refusal::number(try_write(rule, vessels, names, numbers, out))
}
