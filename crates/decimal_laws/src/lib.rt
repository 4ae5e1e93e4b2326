// What rounding to nine decimals means over whole numbers, and that the text of a decimal and reading it back belong
// together (02, A10). This crate contains definitions and theorems about `decimal`, and no code.
#![tactic(auto)]
