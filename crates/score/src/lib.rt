// The score side's lowest layer: rows and their limits, and the numbers of all refusals.
#![tactic(auto)]

pub mod limits;
pub mod refusal;
pub mod rows;
