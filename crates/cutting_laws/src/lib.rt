// However a stream of bytes is cut into pieces, a reader gives out the same questions and the same refusal of a length (02, A2).
// This crate has definitions and theorems about `link_reader::Reader::read`, and no code.
#![tactic(auto)]
