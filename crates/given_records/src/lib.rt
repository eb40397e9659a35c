// A record as it is given to write, judged.
#![tactic(auto)]

mod judging;
pub mod records;
