//! The sections of debug data (DWARF 5, Appendix B; gABI ch. 4 "Special Sections").
//!
//! This layer promises: each section that is read has its name and its part in a file that is edited,
//! by one table; which section a name is, and which names are those of sections that are carried as
//! they are.
//! It does not promise: anything of the sections of a file.
//! Read first: `specs/DebugSections.antt`.

ghost use Rattle.std.specs.Prelude.{◌≡◌, ◌<◌, ◌≤◌, ◌↔◌, IsTrue, map, length};
ghost use Rattle.dw_base.specs.DebugSections.{debug_section, is_listed, listed_number, name_of, row_of, section_in};
ghost use Rattle.dw_base.specs.RelocationSectionFails.{moves};
ghost use Rattle.dw_base.specs.SectionNames.{index_in};

/// A section of debug data whose bytes are read.
#[derive(Clone, Copy, Debug, PartialEq, Eq)]
pub enum DebugSection {
    /// `.debug_info`: units with their entries.
    Info,
    /// `.debug_types`: units of one type each (DWARF 4).
    Types,
    /// `.debug_abbrev`: tables of abbreviations.
    Abbrev,
    /// `.debug_str`: texts that values name by an offset.
    Str,
    /// `.debug_line_str`: texts that line tables name by an offset.
    LineStr,
    /// `.debug_str_offsets`: offsets of texts that values name by an index.
    StrOffsets,
    /// `.debug_line`: line tables.
    Line,
    /// `.debug_macro`: macro units.
    Macro,
    /// `.debug_names`: name tables.
    Names,
}

/// A row of the table of sections that are read.
#[derive(Clone, Copy, Debug, PartialEq, Eq)]
pub struct DebugRow {
    /// The section's name.
    pub name: &'static [u8],
    /// A file that is edited may get other bytes for it.
    pub rewritten: bool,
    /// Places in it may change then.
    pub moves: bool,
    /// A relocatable file may have several, one for each group of sections.
    pub repeats: bool,
}

/// The sections that are read, in the order of the table.
pub const READ_SECTIONS: [DebugSection; 9] = [
    DebugSection::Info,
    DebugSection::Types,
    DebugSection::Abbrev,
    DebugSection::Str,
    DebugSection::LineStr,
    DebugSection::StrOffsets,
    DebugSection::Line,
    DebugSection::Macro,
    DebugSection::Names,
];

/// The names of the sections that are carried as they are.
const CARRIED: [&[u8]; 13] = [
    b".debug_aranges",
    b".debug_pubnames",
    b".debug_pubtypes",
    b".debug_gnu_pubnames",
    b".debug_gnu_pubtypes",
    b".debug_ranges",
    b".debug_rnglists",
    b".debug_loc",
    b".debug_loclists",
    b".debug_addr",
    b".debug_frame",
    b".debug_macinfo",
    b".debug_gdb_scripts",
];

/// How many names a section of debug data may have.
pub const LISTED_COUNT: usize = 22;

/// A row of a section that is rewritten or not, moves or not, and repeats or not.
fn row(name: &'static [u8], rewritten: bool, moves: bool, repeats: bool) -> DebugRow
    ensures { (result.name.now ≡ name.now) × (result.rewritten ≡ rewritten) × (result.moves ≡ moves) × (result.repeats ≡ repeats) }
{
    DebugRow {
        name,
        rewritten,
        moves,
        repeats,
    }
}

impl DebugSection {
    /// The table.
    pub fn row(self) -> DebugRow
        ensures name { result.name.now ≡ (row_of self).name }
        ensures rewritten { result.rewritten ≡ (row_of self).rewritten }
        ensures moves { result.moves ≡ (row_of self).moves }
        ensures repeats { result.repeats ≡ (row_of self).repeats }
    {
        match self {
            DebugSection::Info => row(b".debug_info", true, false, true),
            DebugSection::Types => row(b".debug_types", true, false, true),
            DebugSection::Abbrev => row(b".debug_abbrev", false, false, false),
            DebugSection::Str => row(b".debug_str", true, true, false),
            DebugSection::LineStr => row(b".debug_line_str", true, true, false),
            DebugSection::StrOffsets => row(b".debug_str_offsets", true, false, false),
            DebugSection::Line => row(b".debug_line", true, true, false),
            DebugSection::Macro => row(b".debug_macro", true, false, true),
            DebugSection::Names => row(b".debug_names", true, false, false),
        }
    }

    /// The section's name.
    pub fn name(self) -> &'static [u8]
        ensures name { result.now ≡ name_of self }
    {
        self.row().name
    }

    /// The section of a name; none exactly where it is the name of no section that is read.
    #[tactic(auto, unfolding(crate::specs::DebugSections::debug_section))]
    pub fn called(name: &[u8]) -> Option<DebugSection>
        ensures section { result ≡ debug_section name.now }
    {
        section_in(&READ_SECTIONS, name)
    }
}

/// The first of these sections that has a name.
fn section_in(sections: &[DebugSection], name: &[u8]) -> Option<DebugSection>
    ensures { result ≡ section_in sections.now name.now }
{
    for section in sections {
        if name == section.name() {
            return Some(*section);
        }
    }
    None
}

/// The place of the first of these sections that has a name, their number where none has it.
fn number_in(sections: &[DebugSection], name: &[u8]) -> usize
    ensures { result ≡ index_in (map name_of sections.now) name.now }
{
    for i in 0..sections.len() {
        if sections[i].name() == name {
            return i;
        }
    }
    sections.len()
}

/// The place of the first of these names that is this one, their number where none is.
fn index_in(names: &[&[u8]], name: &[u8]) -> usize
    ensures place { result ≡ index_in (map (λ n. n.now) names.now) name.now }
    ensures few { result ≤ length names.now }
{
    for i in 0..names.len() {
        if names[i] == name {
            return i;
        }
    }
    names.len()
}

/// The place of a name among all those that a section of debug data may have; `LISTED_COUNT` exactly
/// where it is none of them.
pub fn listed_number(name: &[u8]) -> usize
    ensures number { result ≡ listed_number name.now }
    ensures listed { IsTrue (is_listed name.now) ↔ (result < LISTED_COUNT) }
    ensures few { result ≤ LISTED_COUNT }
{
    let read = number_in(&READ_SECTIONS, name);
    if read < READ_SECTIONS.len() {
        return read;
    }
    READ_SECTIONS.len() + index_in(&CARRIED, name)
}

/// The places of a section change in an edited file, by which one it is that is read: those of the tables of texts, and of the
/// line tables.
pub fn moves(kind: Option<DebugSection>) -> bool
    ensures { result ≡ moves kind }
{
    match kind {
        Some(section) => section.row().moves,
        None => false,
    }
}
