//! How a run ends, as the exit status of the program.

/// The text was answered.
pub const ANSWERED: u8 = 0;

/// The text was refused.
pub const REFUSED: u8 = 1;

/// The words are those of no command.
pub const REFUSED_WORDS: u8 = 2;

/// The search gave up.
pub const GAVE_UP: u8 = 3;

/// A read failed.
pub const READ_FAULT: u8 = 4;

/// A write failed.
pub const WRITE_FAULT: u8 = 5;

/// Memory was refused.
pub const NO_MEMORY: u8 = 6;

/// A report was refused.
pub const REFUSED_REPORT: u8 = 7;

/// The constraint or a base has no model.
pub const LACKS_MODEL: u8 = 8;
