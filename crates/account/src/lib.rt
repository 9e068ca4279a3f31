// An account of a run sheet: how many lines of each kind it holds, and its first and last time.
#![tactic(auto)]

pub mod tally;
pub mod whole;
