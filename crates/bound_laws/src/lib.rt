// Bounds of the results of f64 operations, and the bounds of every question that no entrance check
// refuses. For example, its wanted time is finite and above 0. This crate has definitions and
// theorems, and no code.
#![tactic(auto)]
