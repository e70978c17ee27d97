// The record tree and its laws are definitions and theorems in specs/. For the code of other crates there are the numbers that records hold.
#![tactic(auto)]

pub mod arm;
pub mod call;
pub mod kind;
