// No code: this crate holds document 01's cases (specs/) and the theorem that they hold (proofs/Theorems.antt).
#![tactic(auto)]
