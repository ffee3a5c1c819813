// No code: specs/ has demand 3 as types, and proofs/ what is proved of the crates below together.
#![tactic(auto)]
