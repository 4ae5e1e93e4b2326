// The demands of 01 on `solve` and `write_record`, from the bytes of a question to the bytes of the
// buffer, and the theorem that they are met. This crate has definitions and theorems, and no code.
#![tactic(auto)]
