//! What follows from the definitions alone.
ghost use Rattle.report_lines.specs.ReportLaws.{ItemsLaw, NeverBothLaw, OneItemLaw, OnlyOnceLaw};

/// At most one line that is due has given words.
pub fn one_item()
    ensures { OneItemLaw }
{}

/// No text is both accepted and refused.
pub fn never_both()
    ensures { NeverBothLaw }
{}

/// A text has at most one first wrong line, which is wrong in one way.
pub fn only_once()
    ensures { OnlyOnceLaw }
{}

/// An accepted text is the lines of items, each due and right after those before it.
pub fn accepted_items()
    ensures { ItemsLaw }
{}
