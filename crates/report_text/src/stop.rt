use edge::NoMemory;
use report_lines::RefusedKind;

/// Why a line does not lead on.
#[derive(Clone, Copy, Debug, PartialEq, Eq)]
pub enum LineStop {
    /// The line is wrong, in this way.
    Wrong(RefusedKind),
    /// Memory was refused.
    NoMemory,
}

ghost use Rattle.std.specs.Prelude.{◌≡◌};
ghost use Rattle.report_text.specs.declared.stop.LineStop.TheVariants as stops;

impl From<NoMemory> for LineStop {
    ghost from_gives = { λ _ e. e ≡ stops.NoMemory };

    fn from(_refused: NoMemory) -> Self {
        LineStop::NoMemory
    }
}
