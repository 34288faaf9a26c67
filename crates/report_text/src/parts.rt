//! The parts of an accepted text.
ghost use Rattle.report_text.specs.PartsLaws.{OnePartsLaw, PartsLaw};

use merge_model::{AggregatorName, DistanceName};
use report_lines::accepted_named;

/// An accepted text has the parts of a report: where it merges or names formulas, its parts are
/// accepted, and so its answer is right; where it gave up, its log is spent.
pub fn accepted_has_parts()
    ensures { PartsLaw }
{
    accepted_named(DistanceName::Drastic, AggregatorName::Sum);
    accepted_named(DistanceName::Drastic, AggregatorName::Max);
    accepted_named(DistanceName::Drastic, AggregatorName::Leximax);
    accepted_named(DistanceName::Hamming, AggregatorName::Sum);
    accepted_named(DistanceName::Hamming, AggregatorName::Max);
    accepted_named(DistanceName::Hamming, AggregatorName::Leximax);
}

/// A text has the parts of at most one report.
pub fn one_parts()
    ensures { OnePartsLaw }
{}
