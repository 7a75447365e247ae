// A book as it lies in memory, a head by value and a table that the caller lends: opening it, whether it adds up, and
// the rules of its vessels. What these are is said in the crate `book`.
#![tactic(auto)]

pub mod audit;
pub mod opening;
pub mod rules;
