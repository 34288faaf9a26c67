//! What step lines say.
ghost use Rattle.derivation_log.specs.LineLaws.{OnceLaw, ReadBackLaw};

/// A line spells at most one step, so each answer of `read_step` comes exactly where its words
/// apply.
pub fn one_step()
    ensures { OnceLaw }
{}

/// What `write_step` wrote, without its line feed, is read back as the same number and step, want
/// of memory apart.
pub fn read_back()
    ensures { ReadBackLaw }
{}
