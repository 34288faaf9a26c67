use edge::NoMemory as OutOfMemory;

/// What is wrong with a line of a problem text, or with the whole text, in the order in which
/// the least is named.
#[derive(Clone, Copy, Debug, PartialEq, Eq)]
pub enum TextKind {
    /// A byte before the comment is no letter, digit, blank, `_` or mark.
    BadByte,
    /// The line has none of the forms of a line.
    BadLine,
    /// What should be a formula is none, whatever its names.
    BadForm,
    /// A name in the formula is that of no atom.
    UnknownAtom,
    /// An atom or an agent is named `true` or `false`.
    Reserved,
    /// An atom, an agent's name or a constraint was declared before.
    Twice,
    /// A limit on atoms, agents, times, nodes, queries or the bytes of a name is passed.
    TooMany,
    /// More than `OPEN_LIMIT` brackets are open at one place of the formula, or its depth is over
    /// `DEPTH_LIMIT`.
    TooDeep,
    /// No atom is declared at the end.
    NoAtoms,
    /// There is no agent at the end.
    NoAgent,
}

/// Why a line is not read.
#[derive(Clone, Copy, Debug, PartialEq, Eq)]
pub enum LineStop {
    /// The least fault of the line.
    Fault(TextKind),
    /// There was no memory left.
    NoMemory,
}

impl From<OutOfMemory> for LineStop {
    ghost use Rattle.std.specs.Prelude.{◌≡◌};
    ghost use Rattle.problem_reading.specs.declared.stop.LineStop.TheVariants.{NoMemory};

    ghost from_gives = { λ _ stop. stop ≡ NoMemory };

    fn from(_error: OutOfMemory) -> Self {
        LineStop::NoMemory
    }
}

/// The first fault of a problem text.
#[derive(Clone, Copy, Debug, PartialEq, Eq)]
pub struct TextFault {
    /// The line, from 1 on, or 0 for a fault of the whole text.
    pub line: u64,
    /// What is wrong with it.
    pub kind: TextKind,
}

/// Why a problem text is not read.
#[derive(Clone, Copy, Debug, PartialEq, Eq)]
pub enum TextStop {
    /// Its first fault.
    Fault(TextFault),
    /// There was no memory left.
    NoMemory,
}
