// Calls in numbers: six for each, its kind and its arguments.
#![tactic(auto)]

ghost use Rattle.std.specs.Prelude.{◌≡◌, false, cond, ◌++◌, ◌≤◌, map, drop, length};
ghost use Rattle.std.specs.List.{list_any};
ghost use Rattle.refusal.specs.Refusals.{outcome_number};
ghost use Rattle.encoding.specs.Encoding.{age_off, call_listed, Reads};
ghost use Rattle.encoding.specs.Reading.{age_read, call_read};

use book::{Lift, Report, Setting, Tip, Transfer};
use journal::Call;
use refusal::Refusal;

// A call is six numbers: its kind and its arguments.
pub const CALL_SIZE: usize = 6;

// The kinds of a call, by their numbers in a list.
const TRANSFER: u32 = 0;

const HELD: u32 = 1;

const SPREAD: u32 = 2;

const LIFT: u32 = 4;

const TIP: u32 = 5;

const SETTING: u32 = 6;

// An age, which is a number of 16 bits.
fn read_age(age: u32) -> Result<u16, Refusal>
    ensures { result ≡ age_read age }
{
    u16::try_from(age).map_err(|_| Refusal::AgeOver)
}

// The call that six numbers are.
#[tactic(auto, unfolding(crate::specs::Reading::call_read, crate::specs::Encoding::call_listed, crate::specs::Encoding::age_off))]
fn read_call(six: &[u32; CALL_SIZE]) -> Result<Call, Refusal>
    ensures { result ≡ call_read six.now }
{
    Ok(match *six {
        [TRANSFER, source, destination, minute, weight, age] => Call::Transfer(Transfer {
            source,
            destination,
            minute,
            weight,
            age: read_age(age)?,
        }),
        [LIFT, source, minute, weight, age, _] => Call::Lift(Lift {
            source,
            minute,
            weight,
            age: read_age(age)?,
        }),
        [TIP, destination, minute, ..] => Call::Tip(Tip {
            destination,
            minute,
        }),
        [SETTING, vessel, rule, ..] => Call::Setting(Setting { vessel, rule }),
        [HELD, vessel, ..] => Call::Report(Report::Held(vessel)),
        [SPREAD, origin, from, to, ..] => Call::Report(Report::Spread(origin, from, to)),
        _ => Call::Report(Report::Whole), // 3, and every other number
    })
}

// Whether each age of the calls is a number of 16 bits.
fn check_ages(groups: &[[u32; CALL_SIZE]]) -> Result<(), Refusal>
    ensures { outcome_number result ≡ cond (list_any age_off groups.now) 18 0 }
{
    for six in groups {
        read_call(six)?;
    }
    Ok(())
}

// The calls that the groups are, at the start of the room for them.
#[tactic(auto, using(crate::proofs::Reading::reads_well))]
fn fill(groups: &[[u32; CALL_SIZE]], calls: &mut [Call])
    requires { (length groups.now ≤ length calls.old) × (list_any age_off groups.now ≡ false) }
    ensures { calls.new ≡ map call_listed groups.now ++ drop (length groups.now) calls.old }
{
    for (i, six) in groups.iter().enumerate() {
        calls[i] = read_call(six).unwrap(); // its age was checked before
    }
}

// Reads as many calls as there are numbers and room for, and says how many. A list with an age that is none is refused
// whole.
pub fn read_calls(numbers: &[u32], calls: &mut [Call]) -> Result<usize, Refusal>
    ensures { Reads numbers.now calls.old calls.new result }
{
    let (groups, _) = numbers.as_chunks::<CALL_SIZE>();
    let n = groups.len().min(calls.len());
    let groups = &groups[..n];
    check_ages(groups)?;
    fill(groups, calls);
    Ok(n)
}
