// 01's worked cases and further corner cases, which the prover computes from the definitions alone.
// This crate has tables and theorems, and no code.
#![tactic(auto)]
