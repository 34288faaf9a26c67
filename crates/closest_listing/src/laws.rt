//! What the answers of a listing, one after the other, come to.
ghost use Rattle.closest_listing.specs.Listed.{ListedLaw};

/// Valuations that a listing gave one after the other are the first closest valuations above its
/// beginning, and all of them where none came after the last.
pub fn listed_law()
    ensures { ListedLaw }
{}
