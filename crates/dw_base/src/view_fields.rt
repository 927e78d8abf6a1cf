//! What a field of a section of debug data reads as (gABI ch. 4 "Relocation"; DWARF 5, 7.4).

/// What a field reads as: a number, or, in a relocatable file where a relocation lies on it, a place in
/// a section, or a symbol.
#[derive(Clone, Copy, Debug, PartialEq, Eq)]
pub enum Field {
    /// A number.
    Num(u64),
    /// A place in a section.
    Into {
        /// The section's number.
        section: u32,
        /// In bytes from the section's start.
        offset: u64,
    },
    /// A symbol, by a relocation that names no such place.
    Sym {
        /// The symbol's number.
        symbol: u32,
        /// The relocation's type.
        kind: u32,
        /// What is added to the symbol's value.
        addend: i64,
    },
}
