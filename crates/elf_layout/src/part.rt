//! Parts, of which a file is written: this project's profile.

use dw_base::Section;

/// A section that is to be written.
#[derive(Debug, Drop)]
pub struct Part {
    /// Its header. The place and size are new where the part is laid out; the size and link of part 0
    /// are the file's.
    pub head: Section,
    /// Its bytes, of a part that is laid out.
    pub body: Option<Vec<u8>>,
    /// The part stays at its place, in the front.
    pub kept: bool,
}
