//! Worked main clauses, the parts that they are made of, and claims. There is nothing here but
//! tests.
#![tactic(auto)]

#[cfg(test)]
mod copies;
#[cfg(test)]
mod counters;
#[cfg(test)]
mod definitions;
#[cfg(test)]
mod levels;
#[cfg(test)]
mod numbers;
#[cfg(test)]
mod tests;
