// What the checksum catches of a packet that was changed on its way, and what it does not (docs/RULES.md S14 to S22). There is no code here: the laws
// are in proofs/, and specs/Table.antt is a table of changed packets with what is answered of each.
#![tactic(auto)]
