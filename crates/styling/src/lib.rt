// Fields laid into a line, and a good line in house style.
#![tactic(auto)]

pub mod laying;
pub mod styles;
