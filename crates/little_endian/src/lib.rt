// Numbers as bytes, the lowest first: definitions and proofs only.
#![tactic(auto)]
