/// A token of a line.
#[derive(Clone, Copy, Debug)]
pub enum Token<'a> {
    /// `!`
    Bang,
    /// `&`
    Ampersand,
    /// `|`
    Bar,
    /// `->`
    Arrow,
    /// `<->`
    BothArrow,
    /// `(`
    Open,
    /// `)`
    Close,
    /// `:`
    Colon,
    /// A `<`, `-` or `>` that is no part of an arrow.
    Stray,
    /// A longest run of letters, digits and `_`.
    Word(&'a str),
}
