// The rules of the shelf. All of them are definitions, in specs/; what is proved of them stands in proofs/. There is no code here.

#![tactic(auto)]
