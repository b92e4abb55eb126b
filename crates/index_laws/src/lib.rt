// What follows from the definitions of the index beside the options (crates/ndp_option_index). There is no code here: the laws are in proofs/.
#![tactic(auto)]
