// What reading a sheet yields.

// The numbers of a header.
#[derive(Clone, Copy, Debug, PartialEq, Eq)]
pub struct Header {
    pub rule: u32,
    pub vessels: u32,
    pub movements: u32,
}

// What reading a sheet yields in C, where a number tells a refusal: `Result` has no layout there.
#[repr(C)]
#[derive(Clone, Copy, Debug, PartialEq, Eq)]
pub struct Reading {
    pub number: u32,
    pub rule: u32,
    pub vessels: u32,
    pub movements: u32,
}

// What asking for a movement yields in C, likewise. Its age is a number of 16 bits in 32, so that there is no padding.
#[repr(C)]
#[derive(Clone, Copy, Debug, PartialEq, Eq)]
pub struct Movement {
    pub number: u32,
    pub source: u32,
    pub destination: u32,
    pub minute: u32,
    pub weight: u32,
    pub age: u32,
}
