// The interface as definitions (specs/), the laws that are proved of them (proofs/), and for code the numbers of the hypercalls and where a block has its windows.
#![tactic(auto)]

pub mod block;
pub mod numbers;
