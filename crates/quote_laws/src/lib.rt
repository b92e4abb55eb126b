// What follows from the definition of a chain (crates/quotes). There is no code here: the laws are in proofs/, and specs/Table.antt is a table of
// packets with what is answered of each.
#![tactic(auto)]
