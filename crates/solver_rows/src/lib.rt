//! Worked steps, questions to the solver and trims of logs, with each step judged by the step
//! checker. There is nothing here but tests.
#![tactic(auto)]

#[cfg(test)]
mod logs;
#[cfg(test)]
mod propagation;
#[cfg(test)]
mod questions;
#[cfg(test)]
mod steps;
#[cfg(test)]
mod tests;
#[cfg(test)]
mod trims;
