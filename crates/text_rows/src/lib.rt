//! Worked texts of formulas and reports. There is nothing here but tests.
#![tactic(auto)]

#[cfg(test)]
mod tests;
