// What form, references and rewrite say of a padded file. There is no code here: the theorems follow from the promises of the calls.

#![tactic(auto)]
