// The option walk for any rule of the types: what it is (docs/RULES.md W1 to W6) and what holds of it (W7 to W11, J1 to J5). There is no code in it.
#![tactic(auto)]
