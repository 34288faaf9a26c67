//! Worked merges of small problems and searches about them, with each expected value worked out by
//! hand. There is nothing here but tests.
#![tactic(auto)]

#[cfg(test)]
mod merging;
#[cfg(test)]
mod questions;
#[cfg(test)]
mod tests;
