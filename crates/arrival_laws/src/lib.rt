// What a board holds, whatever the order in which messages arrive (02, A1). This crate contains definitions and
// theorems about `board::post`, and no code.
#![tactic(auto)]
