// The rules of document 01 are definitions (specs/) and theorems about them (proofs/); no code stands here.
#![tactic(auto)]
