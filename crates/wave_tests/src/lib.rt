//! The tests of runs by waves.
#![tactic(auto)]

#[cfg(test)]
mod waves;
