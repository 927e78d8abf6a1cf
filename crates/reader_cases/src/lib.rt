//! Worked examples of paths, texts, and the readers of ELF files and debug data: what each call that takes memory answers, where
//! there is enough.
//!
//! This layer promises: each file and each table of bytes in it is read or written as its test says, by the expected values of other
//! programs. It has a module for each crate that it tests, and is a crate of its own, so that their functions aren't proved a second
//! time with their tests. What refuses files, and at which place, is seen by whole commands: `cases/` has that.
//! Read first: `files.rt`, then the module of a crate.
#![tactic(auto)]

ghost use Rattle.std.specs.Prelude.{◌≡◌, ◌≤◌, length, IfOk, OnOk};
ghost use Rattle.dw_base.specs.Layout.{output_limit};

use dw_base::{Fault, OUTPUT_LIMIT};
use elf_file::ElfFile;
use std::alloc::Global;

#[cfg(test)]
mod build_ident_tests;
#[cfg(test)]
mod dbg_gen_tests;
#[cfg(test)]
mod debug_link_tests;
#[cfg(test)]
mod dw_abbrev_tests;
#[cfg(test)]
mod dw_base_tests;
#[cfg(test)]
mod dw_lines_tests;
#[cfg(test)]
mod dw_macros_tests;
#[cfg(test)]
mod dw_offsets_tests;
#[cfg(test)]
mod dw_patch_tests;
#[cfg(test)]
mod dw_paths_tests;
#[cfg(test)]
mod dw_sources_tests;
#[cfg(test)]
mod dw_strings_tests;
#[cfg(test)]
mod dw_units_tests;
#[cfg(test)]
mod dw_view_pair_tests;
#[cfg(test)]
mod dw_view_tests;
#[cfg(test)]
mod elf_layout_tests;
#[cfg(test)]
mod entry_arena_tests;
#[cfg(test)]
mod files;

/// The records of a file; no memory where it is longer than any that is read.
pub fn records(alloc: Global, bytes: &[u8]) -> Result<ElfFile<'_>, Fault>
    ensures small { OnOk result (length bytes.now ≤ output_limit) }
    ensures bytes { IfOk result (λ file. file.bytes.now ≡ bytes.now) }
{
    if bytes.len() as u64 > OUTPUT_LIMIT {
        return Err(Fault::NoMemory);
    }
    let file = ElfFile::read(alloc, bytes)?;
    Ok(file)
}
