// What a list of append lengths will need: definitions and proofs only.
#![tactic(auto)]
