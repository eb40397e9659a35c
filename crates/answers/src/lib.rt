// What the calls for C and Rust leave in words, and their promises. All of it is definitions, in specs/; there is no code here.

#![tactic(auto)]
