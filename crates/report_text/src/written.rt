//! What is written of accepted parts.
ghost use Rattle.report_text.specs.WrittenLaws.{WrittenLaw, WrittenSpentLaw};

/// A report that is written of accepted parts is accepted, and one of a log that is spent is
/// accepted as spent.
pub fn written_is_accepted()
    ensures accepted { WrittenLaw }
    ensures spent { WrittenSpentLaw }
{}
