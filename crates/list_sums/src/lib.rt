//! Words for contracts: sums over lists, and how often a number stands in one. Their laws are in `proofs/`; there is no code.
#![tactic(auto)]
