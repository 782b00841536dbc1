//! Text in lines of words: the lines of a file, their words, numbers, ports, addresses and protocols. Files of rules
//! and scripts are read by these calls, and so are the numbers and ports of the command line.
#![tactic(auto)]

pub mod halves;
pub mod laws;
pub mod lines;
pub mod numbers;
pub mod options;
