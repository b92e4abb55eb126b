// The worked cases P1 to P14 of docs/RULES.md, as one table over the library's definitions. There is no code here: specs/Table.antt is the table, and
// specs/Limits.antt that of refusal 3 at its limits.
#![tactic(auto)]
