// What the program hands over: the lines that it prints, and the files that it writes.
#![tactic(auto)]

pub mod files;
pub mod lines;
