// What is written reads back, and what is read can be written. There is no code here: the theorems follow from the promises of read and write.

#![tactic(auto)]
