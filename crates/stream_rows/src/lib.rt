//! Worked reads and writes of sources and sinks, with the faults in their midst. There is nothing
//! here but tests.
#![tactic(auto)]

#[cfg(test)]
mod tests;
