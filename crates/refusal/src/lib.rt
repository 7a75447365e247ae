// The refusals of document 01, "Numbers and their words", and of the requests of document 02.
#![tactic(auto)]

ghost use Rattle.std.specs.Prelude.{◌≡◌};
ghost use Rattle.refusal.specs.Refusals.{number_of, outcome_number};

// Why a call was refused. Its number is the one that callers see; the word that the documents give it stands behind it. 0 is acceptance.
#[derive(Clone, Copy, Debug, PartialEq, Eq)]
pub enum Refusal {
    TableShort = 1, // no tray
    RuleUnknown = 2, // rule unknown
    VesselCount = 3, // vessel count
    BookOff = 4, // book off
    NoVessel = 5, // no vessel
    SameVessel = 6, // same tub
    NoWeight = 7, // empty scoop
    ClockBack = 8, // clock back
    Overfull = 9, // overfull
    TallyFull = 10, // tally full
    TableFull = 11, // tray full
    SpanBack = 12, // span back
    ReportShort = 13, // short form
    NoSheet = 14, // no sheet
    Movements = 15, // movements
    Layout = 16, // layout
    Name = 17, // name
    AgeOver = 18, // filler
    OutputShort = 19, // short paper
    PastEnd = 20, // past the end
    BeforeTime = 21, // milled before time
    ScaleLoaded = 22, // scale loaded
    ScaleBare = 23, // scale bare
}

impl From<Refusal> for u32 {
    ghost from_gives = { λ why n. n ≡ number_of why };

    fn from(why: Refusal) -> u32 {
        why as u32
    }
}

// The number of a call: that of its refusal, or 0.
pub fn number(outcome: Result<(), Refusal>) -> u32
    ensures { result ≡ outcome_number outcome }
{
    match outcome {
        Ok(()) => 0,
        Err(why) => u32::from(why),
    }
}

// The largest number of 32 bits: no weight, minute or count is above it.
pub const TOP: u32 = u32::MAX;
