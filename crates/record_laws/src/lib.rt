// Theorems about the record of every question: it has one of four forms, it is never malformed for a board, and it names
// job 0 exactly if it is the refusal with number 1. Theorems about every refusal: its longer form goes with number 12
// and with no other number. This crate contains definitions and theorems about `question_record`, `outcomes` and
// `board`, and no code.
#![tactic(auto)]
