//! Which files of a build root are left as they are: the rules in their order (this project's profile).
//!
//! Read first: `specs/Leaving.antt`.

ghost use Rattle.std.specs.Prelude.{◌≡◌, ◌<◌, IfNone, IfOk, IfSome};
ghost use Rattle.std.specs.List.{list_any};
ghost use Rattle.dw_base.specs.Elf.{section_count};
ghost use Rattle.dw_base.specs.ElfFails.{ElfReads};
ghost use Rattle.dw_base.specs.LayoutReads.{is_known_kind};
ghost use Rattle.dbg_split.specs.Droppable.{is_droppable};
ghost use Rattle.dbg_split.specs.SplitFails.{is_link};
ghost use Rattle.dbg_job.specs.Leaving.{IsLeft, IsTaken, begins_as_elf, has_link, has_work, is_debug_named, some_below};

use dbg_split::{droppables, is_named, is_named_from};
use dw_base::elf_numbers::ELFMAG;
use dw_base::{FileKind, NoMemory, Order, number_in};
use elf_file::ElfFile;
use job_types::LeftWhy;
use std::alloc::Global;

/// The name of the link to a debug file.
const DEBUG_LINK: &[u8] = b".gnu_debuglink";
/// What the name of each section of debug data begins with.
const DEBUG_PREFIX: &[u8] = b".debug_";

/// The file begins as an ELF file does.
#[tactic(auto, unfolding(crate::specs::Leaving::begins_as_elf))]
pub(crate) fn begins_as_elf(bytes: &[u8]) -> bool
    ensures value { result ≡ begins_as_elf bytes.now }
{
    bytes.len() >= 4 && number_in(Order::Little, bytes, 0, 4) == ELFMAG
}

/// Why the file is left, by the first rule that applies; none where none does.
#[tactic(auto, using(crate::proofs::LeavingLaws::left_rules))]
pub(crate) fn why_left(alloc: Global, elf: &ElfFile) -> Result<Option<LeftWhy>, NoMemory>
    requires reads { ElfReads elf.now.bytes.now }
    ensures left { IfOk result (λ o. IfSome o (λ why. IsLeft elf.now.bytes.now why)) }
    ensures taken { IfOk result (λ o. IfNone o (IsTaken elf.now.bytes.now)) }
{
    if !is_known_kind(elf) {
        return Ok(Some(LeftWhy::OtherType));
    }
    if has_link(elf) {
        return Ok(Some(LeftWhy::AlreadyLinked));
    }
    if !has_work(alloc, elf)? {
        return Ok(Some(LeftWhy::NothingToStrip));
    }
    Ok(None)
}

/// The file is relocatable, or one that is loaded as it stands.
#[tactic(auto, unfolding(dw_base::specs::Elf::file_kind))]
fn is_known_kind(elf: &ElfFile) -> bool
    ensures value { result ≡ is_known_kind elf.now.bytes.now }
{
    match elf.kind {
        FileKind::Rel | FileKind::Exec | FileKind::Dyn => true,
        FileKind::Other(_) => false,
    }
}

/// The file has a link to a debug file.
#[tactic(auto, using(crate::proofs::LeavingLaws::link_rules))]
fn has_link(elf: &ElfFile) -> bool
    ensures value { result ≡ has_link elf.now.bytes.now }
{
    for section in 0..elf.section_count() {
        if is_link(elf, section) {
            return true;
        }
    }
    false
}

/// The section of a number is a link to a debug file.
#[tactic(auto, unfolding(dbg_split::specs::SplitFails::is_link))]
fn is_link(elf: &ElfFile, section: u32) -> bool
    requires there { section < section_count elf.now.bytes.now }
    ensures value { result ≡ is_link elf.now.bytes.now section }
{
    is_named(elf, section, DEBUG_LINK)
}

/// The file has something for a job to do.
#[tactic(auto, unfolding(crate::specs::Leaving::has_work))]
fn has_work(alloc: Global, elf: &ElfFile) -> Result<bool, NoMemory>
    ensures value { IfOk result (λ t. t ≡ has_work elf.now.bytes.now) }
{
    if elf.is_loaded_kind() {
        return has_droppable(alloc, elf);
    }
    Ok(has_debug_named(elf))
}

/// A section of the file would be in a debug file alone.
#[tactic(auto, using(crate::proofs::LeavingLaws::drop_rules))]
fn has_droppable(alloc: Global, elf: &ElfFile) -> Result<bool, NoMemory>
    ensures value { IfOk result (λ t. t ≡ some_below (is_droppable elf.now.bytes.now) (section_count elf.now.bytes.now)) }
{
    let dropped = droppables(alloc, elf)?;
    let some = has_true(dropped.as_slice());
    Ok(some)
}

/// One of the list is true.
#[tactic(auto, using(crate::proofs::LeavingLaws::any_rules))]
fn has_true(list: &[bool]) -> bool
    ensures value { result ≡ list_any (λ t. t) list.now }
{
    for is in list {
        if *is {
            return true;
        }
    }
    false
}

/// A section of the file has the name of debug data.
#[tactic(auto, using(crate::proofs::LeavingLaws::named_rules))]
fn has_debug_named(elf: &ElfFile) -> bool
    ensures value { result ≡ some_below (is_debug_named elf.now.bytes.now) (section_count elf.now.bytes.now) }
{
    for section in 0..elf.section_count() {
        if is_debug_named(elf, section) {
            return true;
        }
    }
    false
}

/// The section of a number has the name of debug data.
#[tactic(auto, unfolding(crate::specs::Leaving::is_debug_named))]
fn is_debug_named(elf: &ElfFile, section: u32) -> bool
    requires there { section < section_count elf.now.bytes.now }
    ensures value { result ≡ is_debug_named elf.now.bytes.now section }
{
    is_named_from(elf, section, DEBUG_PREFIX)
}
