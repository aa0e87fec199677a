// Demand 3, a theorem over the rules: no code.
#![tactic(auto)]
