// What it is to keep the rules is said and proved of the rules alone: there is no code here.
#![tactic(auto)]
