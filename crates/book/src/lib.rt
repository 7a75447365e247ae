// The book as data: its head, which goes into a call by value, what is asked of it and what it answers. What these mean is said in specs/, and
// what follows of that is shown in proofs/; the code is in the crates above, and no call keeps anything between two calls.
#![tactic(auto)]

ghost use Rattle.std.specs.Prelude.{◌≡◌};

use taking::Move;

// A head holds a balance and a rule for each vessel that a book can have.
pub const MOST_VESSELS: usize = 64;

// The scale is one more holder: its number comes after those of all vessels.
pub const SCALE: u32 = MOST_VESSELS as u32;

// The holders: all vessels, and the scale.
pub const HOLDERS: usize = MOST_VESSELS + 1;

// The head of a book. `scale` is the balance of the scale; `rule` is that with which the book was opened, and `rules` has that of each vessel, by which
// its pieces are picked.
#[repr(C)]
#[derive(Clone, Copy, Debug, PartialEq, Eq)]
pub struct Head {
    pub rule: u32,
    pub vessels: u32,
    pub pieces: u32,
    pub last: u32,
    pub accepted: u32,
    pub balances: [u32; MOST_VESSELS],
    pub scale: u32,
    pub rules: [u32; MOST_VESSELS],
}

// What opening, a tip, the setting of a rule and a report answer. C gets it by value, as all answers here, so that a number tells a refusal: `Result` has
// no layout there.
#[repr(C)]
#[derive(Clone, Copy, Debug, PartialEq, Eq)]
pub struct Reply {
    pub number: u32,
    pub head: Head,
}

// The largest age, in minutes: a number of 16 bits.
pub const MOST_AGE: u32 = 65535;

// A transfer of weight from a vessel to another at a minute. What is born was milled `age` minutes before.
#[derive(Clone, Copy, Debug, PartialEq, Eq)]
pub struct Transfer {
    pub source: u32,
    pub destination: u32,
    pub minute: u32,
    pub weight: u32,
    pub age: u16,
}

// Weight taken from a vessel onto the scale at a minute: a transfer whose destination is yet to come.
#[derive(Clone, Copy, Debug, PartialEq, Eq)]
pub struct Lift {
    pub source: u32,
    pub minute: u32,
    pub weight: u32,
    pub age: u16,
}

// The scale emptied into a vessel at a minute.
#[derive(Clone, Copy, Debug, PartialEq, Eq)]
pub struct Tip {
    pub destination: u32,
    pub minute: u32,
}

// The rule that a vessel is given, for later picks.
#[derive(Clone, Copy, Debug, PartialEq, Eq)]
pub struct Setting {
    pub vessel: u32,
    pub rule: u32,
}

// What transfer, lift and tip do to a book: the move of pieces, the minute, and how often it counts as a transfer.
#[derive(Clone, Copy)]
pub struct Motion {
    pub moves: Move,
    pub minute: u32,
    pub counts: u32,
}

// What a transfer or a lift answers: how many pieces moved whole, how many were split, the weight born.
#[repr(C)]
#[derive(Clone, Copy, Debug, PartialEq, Eq)]
pub struct Transferred {
    pub number: u32,
    pub head: Head,
    pub whole: u32,
    pub split: u32,
    pub born: u32,
}

// What a report is asked for: the weight by origin in a vessel; the weight in each vessel that was born at an origin from a minute to a
// minute; the first of all vessels.
#[derive(Clone, Copy, Debug, PartialEq, Eq)]
pub enum Report {
    Held(u32),
    Spread(u32, u32, u32),
    Whole,
}

impl From<Transferred> for Reply {
    ghost from_gives = { λ r z. z ≡ record { number = r.number; head = r.head } };

    fn from(r: Transferred) -> Reply {
        Reply {
            number: r.number,
            head: r.head,
        }
    }
}
