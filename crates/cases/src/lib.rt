// What the test programs share: the input and its numbers, the files that it names, and lines that are written.
#![tactic(auto)]

pub mod files;
pub mod input;
pub mod output;
