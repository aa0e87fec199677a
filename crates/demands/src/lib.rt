// The three demands, said and proved of the definitions and of the promises of the calls.
#![tactic(auto)]
