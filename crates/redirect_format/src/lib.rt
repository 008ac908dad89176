// The bytes of a redirect: definitions and proofs only. What each file of specs/ holds stands at its head.
#![tactic(auto)]
