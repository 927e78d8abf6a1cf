//! What a comparison of a file with a pair says: that they agree, or the first part that differs.

/// A part of what a file means, or what is loaded of it, in the order in which parts are compared.
#[derive(Clone, Copy, Debug, PartialEq, Eq)]
pub enum Part {
    /// How many units there are.
    Units,
    /// The unit of a number, from 0.
    Unit(u32),
    /// How many line tables there are.
    Lines,
    /// The line table of a number, from 0, with its rows.
    LineTable(u32),
    /// How many macro units there are.
    Macros,
    /// The macro unit of a number, from 0.
    MacroUnit(u32),
    /// The texts of the slots of string offsets.
    Slots,
    /// The parts of name tables.
    Names,
    /// The bytes of the sections that are meant as they stand.
    Others,
    /// What is loaded.
    Loaded,
}

/// What is said of a file and a pair.
#[derive(Clone, Copy, Debug, PartialEq, Eq)]
pub enum Verdict {
    /// The pair carries the mapped meaning of the file, and loads what the file loads.
    Agree,
    /// It doesn't: the first part that differs.
    Differ(Part),
}
