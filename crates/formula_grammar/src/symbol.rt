/// A token of a formula, in which a name is a number.
#[derive(Clone, Copy, Debug)]
pub enum Symbol {
    /// `!`
    Bang,
    /// `&`
    Ampersand,
    /// `|`
    Bar,
    /// `->`
    Arrow,
    /// `<->`
    BothArrow,
    /// `(`
    Open,
    /// `)`
    Close,
    /// `true`
    True,
    /// `false`
    False,
    /// A name, by the number of its atom.
    Name(u32),
    /// A token that no formula has.
    Foreign,
}
