// What the reader of an orbit message accepts, that it reads back what was written, and when the writer refuses (02, A10). This crate
// contains definitions and theorems about `orbit_message`, and no code.
#![tactic(auto)]
