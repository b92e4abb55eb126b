// No code: what the writer sends, the receive check receives, so far as hop limit and addresses allow.
#![tactic(auto)]
