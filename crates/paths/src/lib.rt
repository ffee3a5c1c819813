// No code: specs/ has what order 2 of document 02 says of the two cubic paths, and proofs/ that it holds.
#![tactic(auto)]
