// Demand 2 is a theorem over the rules alone: there is no code here.
#![tactic(auto)]
