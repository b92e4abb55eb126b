// Plans for sending options in several messages (docs/RULES.md Z1 to Z9), over the sizes of the options alone: what an accepted plan is, and which is ours. What
// holds of them is in proofs/. There is no code here.
#![tactic(auto)]
