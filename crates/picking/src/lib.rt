// Which pieces a holder gives: the order in which a rule picks them, and the plan for a weight.
#![tactic(auto)]

pub mod plan;
pub mod selection;
