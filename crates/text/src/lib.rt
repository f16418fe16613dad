// Bytes of a text: lines, fields, and words in hexadecimal digits.
#![tactic(auto)]

pub mod pieces;
pub mod word;
