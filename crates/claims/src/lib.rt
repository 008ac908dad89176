// What is claimed of any list of the host's calls: definitions and proofs only.
#![tactic(auto)]
