//! The tables that hold texts, the fields that say where texts begin, and where the texts of a string table end (gABI ch. 4 "String Table";
//! DWARF 5, 7.5.5, class string).

ghost use Rattle.std.specs.Prelude.{◌≡◌, ◌==◌, position};
ghost use Rattle.dw_base.specs.Texts.{IsNulEnd};

use memchr::memchr;

/// A table that holds texts (DWARF 5, 7.5.5, class string).
#[derive(Clone, Copy, Debug, PartialEq, Eq)]
pub enum TextSection {
    /// `.debug_str`.
    InStr,
    /// `.debug_line_str`.
    InLineStr,
}

/// A field that holds the offset of a path's text, or that says where a line table or a macro unit starts.
#[derive(Clone, Copy, Debug, PartialEq, Eq, Drop)]
pub struct TextField {
    /// Where it stands, in bytes from the section's start.
    pub at: u64,
    /// How many bytes it has: 4 or 8.
    pub size: u8,
}

/// Where the first NUL stands.
pub fn nul_in(bytes: &[u8]) -> Option<usize>
    ensures value { result ≡ position (λ b. b == 0) bytes.now }
{
    memchr(0, bytes)
}

/// The place behind the last NUL of a string table, 0 where there is none, in bytes from its start: a
/// text begins at each place before it, and at no other.
#[tactic(auto, using(crate::proofs::NulLaws::nul_laws))]
pub fn nul_end(table: &[u8]) -> usize
    ensures { IsNulEnd table.now result }
{
    let mut end = table.len();
    'bytes: while end > 0 {
        if table[end - 1] == 0 {
            return end;
        }
        end -= 1;
    }
    0
}
