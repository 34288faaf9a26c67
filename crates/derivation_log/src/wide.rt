//! A step as its line spells it: numbers of literals may be larger than that of any variable.
use crate::step::StepKind;
use report_words::WideLit;

/// A link as its words spell it.
#[derive(Clone, Copy, Debug)]
pub struct WideLink {
    pub pivot: WideLit,
    pub number: u64,
}

/// A step as its line spells it, with its number.
#[derive(Drop)]
pub struct WideStep {
    pub number: u64,
    pub kind: StepKind,
    pub clause: Vec<WideLit>,
    pub first: u64,
    pub chain: Vec<WideLink>,
}
