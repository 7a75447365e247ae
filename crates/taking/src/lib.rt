// A move of pieces from a holder to another, and what it did, as data. What is picked by each rule, taken and handed
// over is said in specs/, and what follows of that is shown in proofs/.
#![tactic(auto)]

// The rule that picks as pieces were received, the first first.
pub const AS_RECEIVED: u32 = 0;

// The rule of a stirred vessel, which gives from everything in it. It is the last that a vessel can have.
pub const STIRRED: u32 = 4;

// Weight that is to go from a holder to another. What the source lacks is born there, with this birth minute.
#[derive(Clone, Copy)]
pub struct Move {
    pub source: u32,
    pub destination: u32,
    pub birth: u32,
    pub weight: u32,
}

// What moving the pieces did, and the count of pieces after it.
#[derive(Clone, Copy)]
pub struct Applied {
    pub whole: u32,
    pub split: u32,
    pub born: u32,
    pub count: usize,
}
