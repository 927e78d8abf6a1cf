//! Whether a file may be edited, as far as its sections go (gABI ch. 4 "Sections").
//!
//! This layer promises: of a file that passes no section that is read and has bytes is loaded, nor one that holds
//! relocations of such a section; a file is refused only by a condition that holds in it, at its place. The cost is linear in
//! the number of sections.
//! It does not promise: anything of what the sections hold.
//! Read first: `dw_meaning/specs/FileFails.antt`, then `specs/CheckedFiles.antt`.

ghost use Rattle.std.specs.Prelude.{◌≡◌, ◌<◌, ◌&&◌, not, IfErr, OnOk};
ghost use Rattle.dw_base.specs.Elf.{is_empty_kind, section_count};
ghost use Rattle.dw_base.specs.ElfFails.{ElfReads};
ghost use Rattle.dw_meaning.specs.FileFails.{FileFails};
ghost use Rattle.dw_base.specs.FileViews.{view_of};
ghost use Rattle.dw_base.specs.ViewData.{is_read};
ghost use Rattle.dw_rewrite.specs.CheckedFiles.{AreUnloaded, IsHolderUnloaded, IsFilled, IsUnloaded};

use crate::refusal::fixed;
use dw_base::{DebugSection, Refusal, Section};
use dw_view::{RelocationSources, View};
use elf_file::ElfFile;

/// The sections of the file stand where they may. Refused as `Fixed` at one that is loaded.
pub(crate) fn check_unloaded(
    elf: &ElfFile,
    view: &View,
    sources: &RelocationSources,
) -> Result<(), Refusal>
    requires reads { ElfReads elf.now.bytes.now }
    requires view { view.now ≡ view_of elf.now.bytes.now }
    requires sources { sources.now ≡ elf.now.bytes.now }
    ensures fit { OnOk result (AreUnloaded elf.now.bytes.now) }
    ensures refused { IfErr result (FileFails elf.now.bytes.now) }
{
    for index in 0..elf.section_count() {
        check_section(elf, view, sources, index)?;
    }
    Ok(())
}

/// The section of a number isn't loaded where it is read and has bytes, nor is the one that holds its relocations. One that is
/// loaded is refused as `Fixed` at its number.
#[tactic(auto, using(crate::proofs::LoadedSectionLaws::section_laws))]
fn check_section(
    elf: &ElfFile,
    view: &View,
    sources: &RelocationSources,
    index: u32,
) -> Result<(), Refusal>
    requires reads { ElfReads elf.now.bytes.now }
    requires view { view.now ≡ view_of elf.now.bytes.now }
    requires sources { sources.now ≡ elf.now.bytes.now }
    requires there { index < section_count elf.now.bytes.now }
    ensures fits { OnOk result (IsUnloaded elf.now.bytes.now index) }
    ensures refused { IfErr result (FileFails elf.now.bytes.now) }
{
    let kind = view.kind(index);
    let section = elf.section(index);
    if !is_filled(kind, &section) {
        return Ok(());
    }
    if section.is_alloc() {
        return Err(fixed(index));
    }
    check_holder(elf, sources, index)?;
    Ok(())
}

/// The section that holds the relocations of the one of a number, which is read and has bytes, isn't loaded. One that is loaded
/// is refused as `Fixed` at its number.
#[tactic(auto, using(crate::proofs::LoadedSectionLaws::holder_laws))]
fn check_holder(elf: &ElfFile, sources: &RelocationSources, index: u32) -> Result<(), Refusal>
    requires reads { ElfReads elf.now.bytes.now }
    requires sources { sources.now ≡ elf.now.bytes.now }
    requires there { index < section_count elf.now.bytes.now }
    requires filled { IsFilled elf.now.bytes.now index }
    ensures fits { OnOk result (IsHolderUnloaded elf.now.bytes.now index) }
    ensures refused { IfErr result (FileFails elf.now.bytes.now) }
{
    let Some(holder) = sources.holder(index) else {
        return Ok(());
    };
    let section = elf.section(holder);
    if section.is_alloc() {
        return Err(fixed(holder));
    }
    Ok(())
}

/// A section whose bytes are read, and that has some in the file.
fn is_filled(kind: Option<DebugSection>, section: &Section) -> bool
    ensures { result ≡ (is_read kind && not (is_empty_kind section.now)) }
{
    is_read(kind) && !section.takes_no_room()
}

/// A section whose bytes are read: one that has a name of debug data.
#[tactic(auto, using(crate::proofs::LoadedSectionLaws::read_laws))]
fn is_read(kind: Option<DebugSection>) -> bool
    ensures { result ≡ is_read kind }
{
    kind.is_some()
}
