//! A line table that is written with mapped paths (DWARF 5, 6.2.4).
//!
//! This file promises: the table that is given is the defined one, byte for byte; it is refused exactly where a
//! new length or offset doesn't fit its field, or the program defines a file whose path changes.
//! Read first: `TextLineChanges` and `TextWriteFails` in `dw_base/specs`.

ghost use Rattle.std.specs.Prelude.{◌≡◌, ◌↔◌, ◌+◌, ◌-◌, ◌≤◌, ◌<◌, ◌^◌, ◌++◌, [], length, Some, IsSome, IsTrue, IfOk, IfErr, OnOk};
ghost use Rattle.dw_base.specs.FileViews.{section_bytes};
ghost use Rattle.dw_lines.specs.OffsetRooms.{AllHaveRoom};
ghost use Rattle.dw_lines.specs.NewTexts.{text_known, texts_known};
ghost use Rattle.dw_lines.specs.ViewSources.{view_source};
ghost use Rattle.dw_base.specs.Refusals.{Blames, at};
ghost use Rattle.dw_base.specs.declared.debug_sections.DebugSection.TheVariants.{LineStr, Str};
ghost use Rattle.dw_base.specs.declared.fault.Kind.TheVariants.{TooWide};
ghost use Rattle.dw_base.specs.declared.fault.Refusal.{Refusal as RefusalOf};
ghost use Rattle.dw_base.specs.LineTables.{IsLineTable, table_bytes, table_made};
ghost use Rattle.dw_base.specs.LineHeaders.{line_header};
ghost use Rattle.dw_base.specs.LinePrograms.{next_opcode};
ghost use Rattle.dw_base.specs.Walks.{ComesTo, Since};
ghost use Rattle.dw_base.specs.LineWriteFails.{ProgramFails, length_field, length_limit};
ghost use Rattle.dw_base.specs.TextLineChanges.{program_by_texts, table_by_texts, texts_changes};
ghost use Rattle.dw_base.specs.TextWriteFails.{CanWriteTexts, TextWriteFails};
ghost use Rattle.dw_base.specs.WrittenLines.{behind_lengths, changed, header_length_place, length_bytes, length_size, with_header_length, with_program};

use crate::changes::{check_offsets, put_texts};
use crate::defined_paths::check_opcodes;
use crate::header::{length_place, line_header};
use crate::new_texts::NewTexts;
use crate::parts::{part, push_length, push_number};
use crate::table::LineTable;
use dw_base::{
    FIRST_RESERVED_LENGTH, Fault, FilePlace, Kind, LineHeader, LineText, NoMemory, Refusal, Width,
};
use dw_paths::Maps;
use dw_view::View;
use std::alloc::{AllocError, Global};

/// A table that was written.
#[derive(Drop)]
pub struct WrittenTable {
    /// Its bytes.
    pub bytes: Vec<u8>,
    /// Where its program starts, in bytes from the table's start.
    pub program: u64,
}

/// Where the length of a header stands.
pub(crate) fn header_length_place(header: &LineHeader) -> u64
    requires small { header.now.start ≤ 2 ^ 31 }
    ensures place { result ≡ header_length_place header.now.start header.now.width header.now.version }
    ensures behind { header.now.start + length_size header.now.width ≤ result }
    ensures near { result ≤ header.now.start + 16 }
{
    length_place(
        u64::from(header.version),
        header.start + header.width.length_size(),
    )
}

/// The header from behind its length up to the program, with what becomes of its texts.
#[tactic(auto, using(crate::proofs::WrittenLaws::header_laws))]
fn written_header(
    alloc: Global,
    view: &View,
    maps: &Maps,
    texts: &NewTexts,
    section: u32,
    header: &LineHeader,
    all: &[LineText],
) -> Result<Vec<u8>, NoMemory>
    requires there { section < length view.now.sections }
    requires rooms { AllHaveRoom section header.now.width (length (section_bytes view.now section)) all.now }
    requires small { header.now.start ≤ 2 ^ 31 }
    ensures bytes { IfOk result (λ out. out.items ≡ changed (section_bytes view.now section) (behind_lengths header.now.start header.now.width header.now.version) header.now.program (texts_changes (view_source view.now section) maps.now (text_known (view_source view.now section) (texts_known texts.now Str) (texts_known texts.now LineStr)) header.now.width all.now)) }
{
    let first = header_length_place(header) + u64::from(header.width.offset_size());
    let mut out = Vec::new(alloc);
    let place = put_texts(
        alloc,
        view,
        maps,
        texts,
        section,
        header.width,
        all,
        first,
        &mut out,
    )?;
    out.extend_from_slice(part(view.bytes(section), place, header.program))?;
    Ok(out)
}

/// What stands in front of the program, behind the length of the table.
#[tactic(auto, using(crate::proofs::WrittenLaws::front_laws))]
fn written_front(
    alloc: Global,
    view: &View,
    section: u32,
    header: &LineHeader,
    lists: &[u8],
) -> Result<Vec<u8>, AllocError>
    requires there { section < length view.now.sections }
    requires small { header.now.start ≤ 2 ^ 31 }
    ensures bytes { IfOk result (λ out. out.items ≡ with_header_length (view_source view.now section) (table_made section header.now [] [] [] []) lists.now) }
{
    let version = header.start + header.width.length_size();
    let mut out = Vec::new(alloc);
    out.extend_from_slice(part(view.bytes(section), version, header_length_place(header)))?;
    push_number(&mut out, view.order(), header.width, lists.len() as u64)?;
    out.extend_from_slice(lists)?;
    Ok(out)
}

/// The length of a table is below the limit of its width.
fn length_fits(width: Width, len: u64) -> bool
    ensures fits { IsTrue result ↔ (len < length_limit width) }
{
    match width {
        Width::W32 => len < FIRST_RESERVED_LENGTH,
        Width::W64 => true,
    }
}

/// Where the length of a table stands.
fn length_field(start: u64, width: Width) -> u64
    requires small { start ≤ 2 ^ 31 }
    ensures field { result ≡ length_field start width }
{
    match width {
        Width::W32 => start,
        Width::W64 => start + 4,
    }
}

/// The table of what stands in front of its program, and of the program. Refused as `TooWide` at its length
/// exactly where that doesn't fit its field.
#[tactic(auto, using(crate::proofs::WrittenLaws::whole_laws))]
fn whole_table(
    alloc: Global,
    view: &View,
    section: u32,
    header: &LineHeader,
    front: &[u8],
) -> Result<WrittenTable, Fault>
    requires there { section < length view.now.sections }
    requires small { header.now.start ≤ 2 ^ 31 }
    ensures bytes { IfOk result (λ w. w.bytes.items ≡ length_bytes view.now.order header.now.width (length (with_program (view_source view.now section) (table_made section header.now [] [] [] []) front.now)) ++ with_program (view_source view.now section) (table_made section header.now [] [] [] []) front.now) }
    ensures program { IfOk result (λ w. w.program ≡ length_size header.now.width + length front.now) }
    ensures fits { OnOk result (length (with_program (view_source view.now section) (table_made section header.now [] [] [] []) front.now) < length_limit header.now.width) }
    ensures refused { IfErr result (Blames (Since (at TooWide section (length_field header.now.start header.now.width)) (length_limit header.now.width ≤ length (with_program (view_source view.now section) (table_made section header.now [] [] [] []) front.now)))) }
{
    let program = part(view.bytes(section), header.program, header.end);
    let len = front.len() as u64 + program.len() as u64;
    if !length_fits(header.width, len) {
        let field = length_field(header.start, header.width);
        return Err(Fault::Refused(Refusal::at(Kind::TooWide, section, field)));
    }
    let mut bytes = Vec::new(alloc);
    push_length(&mut bytes, view.order(), header.width, len)?;
    bytes.extend_from_slice(front)?;
    bytes.extend_from_slice(program)?;
    Ok(WrittenTable {
        bytes,
        program: header.width.length_size() + front.len() as u64,
    })
}

/// The header of the table that starts at a place of a section, which has one.
#[tactic(auto, using(crate::proofs::WrittenLaws::there_laws))]
pub(crate) fn header_of(view: &View, section: u32, start: u64) -> LineHeader
    requires there { section < length view.now.sections }
    requires header { IsSome (line_header view.now.order (section_bytes view.now section) start) }
    ensures header { Some result ≡ line_header view.now.order (section_bytes view.now section) start }
    ensures small { result.start ≤ 2 ^ 31 }
    ensures operands { result.lists ≡ result.operands + (result.opcode_base - 1) }
    ensures lists { result.lists ≤ result.end }
    ensures near { result.program ≤ 2 ^ 31 }
    ensures within { result.end ≤ length (section_bytes view.now section) }
{
    match line_header(view.order(), view.bytes(section), start) {
        Some(header) => header,
        None => unreachable!(),
    }
}

/// Refused as `DefinedPath` exactly where the program of a header defines a file whose path the map changes. It
/// isn't looked at where it defines none.
#[tactic(auto, using(crate::proofs::DefinedLaws::empty_laws))]
fn check_program(
    alloc: Global,
    view: &View,
    maps: &Maps,
    section: u32,
    header: &LineHeader,
    defined: &[FilePlace],
) -> Result<(), Fault>
    requires there { section < length view.now.sections }
    requires defined { ComesTo (next_opcode section header.now (table_bytes (view_source view.now section) header.now)) ([], header.now.program) defined.now }
    requires operands { header.now.lists ≡ header.now.operands + (header.now.opcode_base - 1) }
    requires lists { header.now.lists ≤ header.now.end }
    requires within { header.now.end ≤ length (section_bytes view.now section) }
    ensures none { OnOk result ((r : RefusalOf) → ProgramFails maps.now section header.now (table_bytes (view_source view.now section) header.now) r → ⊥) }
    ensures refused { IfErr result (Blames (ProgramFails maps.now section header.now (table_bytes (view_source view.now section) header.now))) }
{
    if defined.is_empty() {
        return Ok(());
    }
    let table = &view.bytes(section)[..header.end as usize];
    check_opcodes(alloc, maps, section, header, table)
}

impl LineTable {
    /// The table with mapped paths, which was read of the view: a path that stands in it is mapped there, and the
    /// offset of another becomes the new place of its text, where one is known in `.debug_str` or
    /// `.debug_line_str` by the old place: its bytes do, or the addend of its relocation; both lengths are those of what
    /// follows them, and all else is copied, texts beside paths too.
    /// Refused as `TooWide` at the field exactly where a new length or offset doesn't fit it, and as `DefinedPath`
    /// at the opcode exactly where the program defines a file whose path the map changes.
    #[tactic(auto, using(crate::proofs::WrittenLaws::write_laws))]
    pub fn write_mapped(
        &self,
        alloc: Global,
        view: &View,
        maps: &Maps,
        texts: &NewTexts,
    ) -> Result<WrittenTable, Fault>
        requires there { self.now.section < length view.now.sections }
        requires table { IsLineTable (view_source view.now self.now.section) self.now.start self.now }
        ensures bytes { IfOk result (λ w. w.bytes.items ≡ table_by_texts (view_source view.now self.now.section) maps.now (text_known (view_source view.now self.now.section) (texts_known texts.now Str) (texts_known texts.now LineStr)) self.now) }
        ensures program { IfOk result (λ w. w.program ≡ program_by_texts (view_source view.now self.now.section) maps.now (text_known (view_source view.now self.now.section) (texts_known texts.now Str) (texts_known texts.now LineStr)) self.now) }
        ensures can { OnOk result (CanWriteTexts (view_source view.now self.now.section) maps.now (text_known (view_source view.now self.now.section) (texts_known texts.now Str) (texts_known texts.now LineStr)) self.now) }
        ensures none { OnOk result ((r : RefusalOf) → TextWriteFails (view_source view.now self.now.section) maps.now (text_known (view_source view.now self.now.section) (texts_known texts.now Str) (texts_known texts.now LineStr)) self.now r → ⊥) }
        ensures refused { IfErr result (Blames (TextWriteFails (view_source view.now self.now.section) maps.now (text_known (view_source view.now self.now.section) (texts_known texts.now Str) (texts_known texts.now LineStr)) self.now)) }
    {
        let section = self.section;
        let header = header_of(view, section, self.start);
        if let Err(fault) = check_program(alloc, view, maps, section, &header, &self.defined) {
            return Err(fault);
        }
        if let Err(refusal) = check_offsets(view, texts, section, header.width, &self.texts) {
            return Err(Fault::Refused(refusal));
        }
        let lists = written_header(alloc, view, maps, texts, section, &header, &self.texts)?;
        let front = written_front(alloc, view, section, &header, &lists)?;
        match whole_table(alloc, view, section, &header, &front) {
            Ok(written) => Ok(written),
            Err(fault) => Err(fault),
        }
    }
}
