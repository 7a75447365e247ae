// The fields of a movement sheet: numbers in bytes, where each field lies, the names and the movements.
#![tactic(auto)]

pub mod bytes; // bytes.rt: numbers in bytes, the low byte first
pub mod entries; // entries.rt: the movements, and what a movement must be
pub mod layout; // layout.rt: the sizes and limits of a sheet, and where its fields lie
pub mod names; // names.rt: the names of the vessels
