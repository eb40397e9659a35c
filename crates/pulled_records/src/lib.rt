// What read, field and rewrite say of pulled records. All of it is theorems over the promises, in proofs/; there is no code here.

#![tactic(auto)]
