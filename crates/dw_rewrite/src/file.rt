//! The whole of a file rewritten: read, checked, its debug data changed, and written.
//!
//! Read first: `dw_meaning/specs/EditRows.antt` and `dw_meaning/specs/FileMeanings.antt`, then `specs/Rewritten.antt`.

ghost use Rattle.std.specs.Prelude.{◌≡◌, ◌≢◌, ◌<◌, ◌≤◌, ℕ, List, [], length, slice_index, OnOk, IfOk, IfErr};
ghost use Rattle.dw_lines.specs.ViewTables.{TablesFound};
ghost use Rattle.dw_meaning.specs.EditRows.{EditFails, IsAccepted};
ghost use Rattle.dw_base.specs.Elf.{section_count};
ghost use Rattle.dw_base.specs.ElfFails.{ElfReads, SegmentsRead};
ghost use Rattle.dw_meaning.specs.FileMeanings.{IsOutput, MeaningKept, file_data};
ghost use Rattle.dw_meaning.specs.Leavings.{NoLeavings};
ghost use Rattle.dw_base.specs.FileViews.{view_of};
ghost use Rattle.dw_base.specs.Layout.{output_limit, with_bodies};
ghost use Rattle.dw_base.specs.LayoutFails.{LayoutFails, LayoutFits};
ghost use Rattle.dw_base.specs.LayoutReads.{ReadsBack};
ghost use Rattle.dw_meaning.specs.Loaded.{LoadedKept};
ghost use Rattle.dw_base.specs.Refusals.{Blames};
ghost use Rattle.dw_base.specs.declared.fault.Refusal.{Refusal as RefusalOf};
ghost use Rattle.dw_rewrite.specs.Bodies.{FileBodiesMade};
ghost use Rattle.dw_read.specs.FoundPaths.{PathsFound};
ghost use Rattle.dw_starts.specs.LineStarts.{starts_of};
ghost use Rattle.dw_rewrite.specs.CheckedFiles.{IsChecked};
ghost use Rattle.dw_rewrite.specs.Rewritten.{AllStand, AreGiven, IsGiven, IsInFile, body_with, long_fault, long_refusal, told_refusal};

use crate::bodies::new_bodies;
use crate::loaded_sections::check_unloaded;
use crate::new_sections::Body;
use crate::refusal::{fixed, too_large};
use dw_base::{Fault, Kind, Refusal};
use dw_lines::LineTable;
use dw_paths::Maps;
use dw_read::{DebugData, Fields, check_map, read_fields};
use dw_view::{RelocationSources, View};
use elf_file::ElfFile;
use elf_layout::{NewBody, Pieces, emit};
use std::alloc::{AllocError, Global};

/// A file that was rewritten, with the line tables that were read for that.
#[derive(Debug, Drop)]
pub struct Rewritten<'a> {
    /// The file with each source path mapped, of which the file that is rewritten lends what stays.
    pub file: Pieces<'a>,
    /// The line tables of the file as it was, in the order of their places.
    pub tables: Vec<LineTable>,
}

/// What is taken of the debug data of a file: its line tables, where they start, and what the data say of texts.
#[derive(Drop)]
struct Found {
    tables: Vec<LineTable>,
    starts: Vec<u64>,
    fields: Fields,
}

/// The file with each source path mapped: each table of texts is built anew, of the texts that fields name after mapping;
/// each path that stands in its value is mapped there; and the file is laid out anew. Beside it stand the line tables
/// that were read for that. Refused only by a condition that holds in the file, at its place; where none holds, it is
/// rewritten, or there was not enough memory.
#[tactic(auto, using(crate::proofs::ExitLaws::rewrite_rules))]
pub fn rewrite<'a>(alloc: Global, bytes: &'a [u8], maps: &Maps) -> Result<Rewritten<'a>, Fault>
    requires small { length bytes.now ≤ output_limit }
    ensures accepted { OnOk result (IsAccepted maps.now bytes.now) }
    ensures output { IfOk result (λ out. IsOutput maps.now bytes.now out.file) }
    ensures only { IfOk result (λ out. (o : List ℕ) → IsOutput maps.now bytes.now o → o ≡ out.file) }

    // What it means is what the file means, with each source path mapped, and what is loaded of it is as it was.
    ensures meaning { IfOk result (λ out. MeaningKept maps.now bytes.now out.file) }
    ensures loaded { IfOk result (λ out. LoadedKept bytes.now out.file) }

    // No text is left in it that none of its fields names.
    ensures leavings { IfOk result (λ out. NoLeavings (file_data out.file)) }

    // The line tables are those of the file as it was.
    ensures tables { IfOk result (λ out. TablesFound (view_of bytes.now) out.tables.items) }
    ensures none { OnOk result ((r : RefusalOf) → EditFails maps.now bytes.now r → ⊥) }
    ensures refused { IfErr result (Blames (EditFails maps.now bytes.now)) }
{
    let elf = ElfFile::read(alloc, bytes)?;
    rewrite_elf(alloc, &elf, maps)
}

/// The file rewritten, where its records were read.
#[tactic(auto, using(crate::proofs::ExitLaws::elf_rules))]
fn rewrite_elf<'a>(alloc: Global, elf: &ElfFile<'a>, maps: &Maps) -> Result<Rewritten<'a>, Fault>
    requires small { length elf.now.bytes.now ≤ output_limit }
    requires bytes { (k : ℕ) → slice_index elf.now.bytes.now k < 256 }
    requires reads { ElfReads elf.now.bytes.now }
    ensures accepted { OnOk result (IsAccepted maps.now elf.now.bytes.now) }
    ensures output { IfOk result (λ out. IsOutput maps.now elf.now.bytes.now out.file) }
    ensures only { IfOk result (λ out. (o : List ℕ) → IsOutput maps.now elf.now.bytes.now o → o ≡ out.file) }
    ensures meaning { IfOk result (λ out. MeaningKept maps.now elf.now.bytes.now out.file) }
    ensures loaded { IfOk result (λ out. LoadedKept elf.now.bytes.now out.file) }
    ensures leavings { IfOk result (λ out. NoLeavings (file_data out.file)) }
    ensures tables { IfOk result (λ out. TablesFound (view_of elf.now.bytes.now) out.tables.items) }
    ensures refused { IfErr result (Blames (EditFails maps.now elf.now.bytes.now)) }
{
    let view = View::one(&*elf)?;
    let sources = RelocationSources::read(&*elf)?;
    check_unloaded(elf, &view, &sources)?;
    rewrite_checked(alloc, elf, &view, &sources, maps)
}

/// The file rewritten, where its sections were checked.
fn rewrite_checked<'a>(
    alloc: Global,
    elf: &ElfFile<'a>,
    view: &View,
    sources: &RelocationSources,
    maps: &Maps,
) -> Result<Rewritten<'a>, Fault>
    requires small { length elf.now.bytes.now ≤ output_limit }
    requires checked { IsChecked elf.now.bytes.now }
    requires view { view.now ≡ view_of elf.now.bytes.now }
    requires sources { sources.now ≡ elf.now.bytes.now }
    ensures accepted { OnOk result (IsAccepted maps.now elf.now.bytes.now) }
    ensures output { IfOk result (λ out. IsOutput maps.now elf.now.bytes.now out.file) }
    ensures only { IfOk result (λ out. (o : List ℕ) → IsOutput maps.now elf.now.bytes.now o → o ≡ out.file) }
    ensures meaning { IfOk result (λ out. MeaningKept maps.now elf.now.bytes.now out.file) }
    ensures loaded { IfOk result (λ out. LoadedKept elf.now.bytes.now out.file) }
    ensures leavings { IfOk result (λ out. NoLeavings (file_data out.file)) }
    ensures tables { IfOk result (λ out. TablesFound (view_of elf.now.bytes.now) out.tables.items) }
    ensures refused { IfErr result (Blames (EditFails maps.now elf.now.bytes.now)) }
{
    // What a map obeys is known where one of its fields is used: no text that it makes has a NUL.
    let _ = &maps.pairs;
    let (tables, bodies) = made_bodies(alloc, elf, view, sources, maps)?;
    let file = emitted(alloc, elf, bodies)?;
    Ok(Rewritten { file, tables })
}

/// The line tables of the file, and the new bytes of the sections that change. What else was found of its debug data is let go.
fn made_bodies<'a>(
    alloc: Global,
    elf: &ElfFile<'a>,
    view: &View,
    sources: &RelocationSources,
    maps: &Maps,
) -> Result<(Vec<LineTable>, Vec<Body<'a>>), Fault>
    requires small { length elf.now.bytes.now ≤ output_limit }
    requires checked { IsChecked elf.now.bytes.now }
    requires view { view.now ≡ view_of elf.now.bytes.now }
    requires sources { sources.now ≡ elf.now.bytes.now }
    ensures tables { IfOk result (λ m. TablesFound (view_of elf.now.bytes.now) m.0.items) }
    ensures made { IfOk result (λ m. FileBodiesMade maps.now elf.now.bytes.now m.1.items) }
    ensures refused { IfErr result (Blames (EditFails maps.now elf.now.bytes.now)) }
{
    let Found {
        tables,
        starts,
        fields,
    } = found_in(alloc, elf, view, maps)?;
    let lines = tables.as_slice();
    let old = starts.as_slice();
    let bodies = bodies_in(alloc, elf, view, sources, maps, lines, old, &fields)?;
    Ok((tables, bodies))
}

/// What the debug data of the file say of texts, where the map can be applied to the paths among them, with its line tables and where
/// these start.
#[tactic(auto, using(crate::proofs::ExitLaws::found_rules))]
fn found_in(alloc: Global, elf: &ElfFile, view: &View, maps: &Maps) -> Result<Found, Fault>
    requires checked { IsChecked elf.now.bytes.now }
    requires view { view.now ≡ view_of elf.now.bytes.now }
    ensures found { IfOk result (λ f. PathsFound maps.now (view_of elf.now.bytes.now) f.fields f.tables.items) }
    ensures starts { IfOk result (λ f. f.starts.items ≡ starts_of f.tables.items) }
    ensures refused { IfErr result (Blames (EditFails maps.now elf.now.bytes.now)) }
{
    let (data, fields, marks) = read_fields(alloc, view)?;
    check_map(alloc, view, maps, &fields, &marks, data.lines.as_slice())?;
    let DebugData { lines, starts, .. } = data;
    Ok(Found {
        tables: lines,
        starts,
        fields,
    })
}

/// The new bytes of the sections that change, by what was found of texts.
#[tactic(auto, using(crate::proofs::ExitLaws::bodies_rules))]
fn bodies_in<'a>(
    alloc: Global,
    elf: &ElfFile<'a>,
    view: &View,
    sources: &RelocationSources,
    maps: &Maps,
    tables: &[LineTable],
    old: &[u64],
    paths: &Fields,
) -> Result<Vec<Body<'a>>, Fault>
    requires small { length elf.now.bytes.now ≤ output_limit }
    requires checked { IsChecked elf.now.bytes.now }
    requires view { view.now ≡ view_of elf.now.bytes.now }
    requires sources { sources.now ≡ elf.now.bytes.now }
    requires found { PathsFound maps.now (view_of elf.now.bytes.now) paths.now tables.now }
    requires starts { old.now ≡ starts_of tables.now }
    ensures made { IfOk result (λ bodies. FileBodiesMade maps.now elf.now.bytes.now bodies.items) }
    ensures refused { IfErr result (Blames (EditFails maps.now elf.now.bytes.now)) }
{
    match new_bodies(alloc, elf, view, sources, maps, tables, old, paths) {
        Ok(bodies) => Ok(bodies),
        Err(fault) => Err(long_fault(elf, fault)),
    }
}

/// The fault of new bytes that can't be: of those that are too long, by their section.
fn long_fault(elf: &ElfFile, fault: Fault) -> Fault
    requires segments { SegmentsRead elf.now.bytes.now }
    requires there { Blames (IsInFile elf.now.bytes.now) fault }
    ensures { result ≡ long_fault elf.now.bytes.now fault }
{
    match fault {
        Fault::NoMemory => Fault::NoMemory,
        Fault::Refused(refusal) => Fault::Refused(told_refusal(elf, refusal)),
    }
}

/// What refuses them, by what refused them in their section.
fn told_refusal(elf: &ElfFile, refusal: Refusal) -> Refusal
    requires segments { SegmentsRead elf.now.bytes.now }
    requires there { IsInFile elf.now.bytes.now refusal }
    ensures { result ≡ told_refusal elf.now.bytes.now refusal }
{
    match refusal.kind {
        Kind::TooLarge => long_refusal(elf, refusal.section),
        _ => refusal,
    }
}

/// What refuses a section that is too long, of a number: one that stays may not change, and one that is laid out anew
/// makes the file too long.
fn long_refusal(elf: &ElfFile, section: u32) -> Refusal
    requires segments { SegmentsRead elf.now.bytes.now }
    requires there { section < section_count elf.now.bytes.now }
    ensures { result ≡ long_refusal elf.now.bytes.now section }
{
    if elf.is_fixed(section) {
        return fixed(section);
    }
    too_large()
}

/// The file written with new bytes of some sections.
#[tactic(auto, using(crate::proofs::WrittenLaws::written_rules))]
fn emitted<'a>(alloc: Global, elf: &ElfFile<'a>, bodies: Vec<Body<'a>>) -> Result<Pieces<'a>, Fault>
    requires reads { ElfReads elf.now.bytes.now }
    requires stand { AllStand elf.now.bytes.now bodies.items }
    ensures file { IfOk result (λ out. out ≡ with_bodies elf.now.bytes.now (body_with elf.now.bytes.now bodies.entry.items)) }
    ensures back { IfOk result (λ out. ReadsBack elf.now.bytes.now (body_with elf.now.bytes.now bodies.entry.items) out) }
    ensures fits { OnOk result (LayoutFits elf.now.bytes.now (body_with elf.now.bytes.now bodies.entry.items)) }
    ensures refused { IfErr result (Blames (LayoutFails elf.now.bytes.now (body_with elf.now.bytes.now bodies.entry.items))) }
{
    let contents = contents_of(alloc, elf, bodies)?;
    let out = emit(alloc, elf, contents)?;
    Ok(out)
}

/// An item for each section: its new bytes, where some are given.
#[tactic(auto, using(crate::proofs::GivenLaws::given_rules))]
fn contents_of<'v>(
    alloc: Global,
    elf: &ElfFile,
    mut bodies: Vec<Body<'v>>,
) -> Result<Vec<Option<NewBody<'v>>>, AllocError>
    requires stand { AllStand elf.now.bytes.now bodies.items }
    ensures { IfOk result (λ items. AreGiven elf.now.bytes.now items.items bodies.entry.items) }
{
    let mut items = no_contents(alloc, elf)?;
    while let Some(body) = bodies.pop() {
        give(&mut items, body);
    }
    Ok(items)
}

/// An item for each section, none given.
#[tactic(auto, using(crate::proofs::GivenLaws::none_rules))]
fn no_contents<'v>(alloc: Global, elf: &ElfFile) -> Result<Vec<Option<NewBody<'v>>>, AllocError>
    ensures { IfOk result (λ items. AreGiven elf.now.bytes.now items.items []) }
{
    let count = elf.section_count();
    let mut items = Vec::with_capacity(alloc, count as usize)?;
    for _i in 0..count {
        items.push(None)?;
    }
    Ok(items)
}

/// Gives the bytes of a body to its section.
#[tactic(auto, using(crate::proofs::GivenLaws::give_rules))]
fn give<'v>(items: &mut [Option<NewBody<'v>>], body: Body<'v>)
    requires there { body.number ≢ 0 → body.number < length items.old }
    ensures given { IsGiven items.old items.new body.entry }
{
    let Body { section, bytes } = body;
    if section != 0 {
        items[section as usize] = Some(bytes);
    }
}
