// A line judged: its bytes, its code, its fields.
#![tactic(auto)]

pub mod bytes;
pub mod codes;
pub mod fields;
pub mod lines;
pub mod spots;
