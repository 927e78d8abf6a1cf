//! A file, and a stripped file with its debug file, taken to be compared: each with the view of its debug data.
//!
//! Read first: `specs/Taken.antt`.

ghost use Rattle.std.specs.Prelude.{◌≡◌, List, ℕ, IfErr, IfOk, OnOk};
ghost use Rattle.dw_base.specs.DebugSectionFails.{DebugSectionsRead};
ghost use Rattle.dw_base.specs.Elf.{contents_of};
ghost use Rattle.dw_base.specs.FileViews.{view_of};
ghost use Rattle.dw_base.specs.RelocationSectionFails.{RelocationSectionsRead};
ghost use Rattle.dw_base.specs.ViewFails.{ViewFails};
ghost use Rattle.dw_base.specs.declared.fault.Refusal.{Refusal};
ghost use Rattle.dw_view.specs.PairViews.{pair_view};
ghost use Rattle.dw_view.specs.Pairs.{IsPaired};
ghost use Rattle.dbg_check.specs.Taken.{BlamesFile, BlamesPair, PairBytes, RefusesPair, check_err};
ghost use Rattle.dbg_check.specs.declared.reading.CheckErr.{CheckErr as CheckErrOf};
ghost use Rattle.dbg_check.specs.declared.reading.CheckErr.TheVariants as err;

use dw_base::Fault;
use dw_view::{Mismatch, PairErr, View};
use elf_file::ElfFile;
use std::marker::Model;

/// Why a file and a pair aren't compared.
#[derive(Debug, Drop)]
pub enum CheckErr {
    /// The stripped file and the debug file aren't a pair.
    NotAPair(Mismatch),
    /// The file is refused, or there was not enough memory.
    Input(Fault),
    /// The stripped file is refused, or there was not enough memory.
    Stripped(Fault),
    /// The debug file is refused, or there was not enough memory.
    Debug(Fault),
}

impl From<Fault> for CheckErr {
    ghost from_gives = { λ f e. e ≡ err.Input f };

    fn from(fault: Fault) -> CheckErr {
        CheckErr::Input(fault)
    }
}

impl From<PairErr> for CheckErr {
    ghost from_gives = { λ p e. e ≡ check_err p };

    fn from(error: PairErr) -> CheckErr {
        match error {
            PairErr::NotAPair(mismatch) => CheckErr::NotAPair(mismatch),
            PairErr::Stripped(fault) => CheckErr::Stripped(fault),
            PairErr::Debug(fault) => CheckErr::Debug(fault),
        }
    }
}

/// A file, with its view.
#[derive(Drop)]
pub struct FileData<'a> {
    /// The file.
    elf: &'a ElfFile<'a>,
    /// Its view.
    view: View<'a>,
}

impl<'a> Model for FileData<'a> {
    ghost Value = { List ℕ };

    ghost view = { λ d. d.elf.now.bytes.now };

    ghost invariant = { λ d. d.view ≡ view_of d.elf.now.bytes.now };
}

/// A stripped file and its debug file, with their view.
#[derive(Drop)]
pub struct PairData<'a> {
    /// The stripped file.
    stripped: &'a ElfFile<'a>,
    /// The debug file.
    debug: &'a ElfFile<'a>,
    /// The view of both.
    view: View<'a>,
}

impl<'a> Model for PairData<'a> {
    ghost Value = { PairBytes };

    ghost view = { λ d. record { stripped = d.stripped.now.bytes.now; debug = d.debug.now.bytes.now } };

    ghost invariant = { λ d. d.view ≡ pair_view d.debug.now.bytes.now d.stripped.now.bytes.now };
}

/// A file with its view. Refused as `Input` exactly where a condition of `ViewFails` holds, at its place; or for want of memory.
pub fn data_of<'a>(elf: &'a ElfFile<'a>) -> Result<FileData<'a>, CheckErr>
    ensures value { IfOk result (λ taken. taken ≡ elf.now.bytes.now) }
    ensures reads { OnOk result (DebugSectionsRead elf.now.bytes.now) }
    ensures relocations { OnOk result (RelocationSectionsRead (contents_of elf.now.bytes.now) elf.now.bytes.now) }
    ensures none { OnOk result ((r : Refusal) → ViewFails elf.now.bytes.now r → ⊥) }
    ensures refused { IfErr result (BlamesFile elf.now.bytes.now) }
{
    let view = View::one(elf)?;
    Ok(FileData { elf, view })
}

/// A stripped file and the debug file that it names, whose base name is `name`, with the view of both. `NotAPair` exactly where they aren't
/// a pair, with why; else `Stripped` or `Debug` with a refusal exactly where a condition of `ViewFails` holds of that file, at its
/// place; or for want of memory.
pub fn pair_of<'a>(
    stripped: &'a ElfFile<'a>,
    debug: &'a ElfFile<'a>,
    name: &[u8],
) -> Result<PairData<'a>, CheckErr>
    ensures value { IfOk result (λ taken. taken ≡ record { stripped = stripped.now.bytes.now; debug = debug.now.bytes.now }) }
    ensures paired { OnOk result (IsPaired stripped.now.bytes.now debug.now.bytes.now name.now) }
    ensures stripped_reads { OnOk result (DebugSectionsRead stripped.now.bytes.now) }
    ensures debug_reads { OnOk result (DebugSectionsRead debug.now.bytes.now) }
    ensures relocations { OnOk result (RelocationSectionsRead (contents_of debug.now.bytes.now) debug.now.bytes.now) }
    ensures none { OnOk result ((e : CheckErrOf) → RefusesPair stripped.now.bytes.now debug.now.bytes.now name.now e → ⊥) }
    ensures refused { IfErr result (BlamesPair stripped.now.bytes.now debug.now.bytes.now name.now) }
{
    let view = View::pair(stripped, debug, name)?;
    Ok(PairData {
        stripped,
        debug,
        view,
    })
}

impl<'a> FileData<'a> {
    /// The file.
    pub fn elf(&self) -> &'a ElfFile<'a>
        ensures bytes { result.now.bytes.now ≡ self.now }
    {
        self.elf
    }

    /// Its view.
    pub fn view(&self) -> &View<'a>
        ensures view { result.now ≡ view_of self.now }
    {
        &self.view
    }
}

impl<'a> PairData<'a> {
    /// The stripped file.
    pub fn stripped(&self) -> &'a ElfFile<'a>
        ensures bytes { result.now.bytes.now ≡ self.now.stripped }
    {
        self.stripped
    }

    /// The debug file.
    pub fn debug(&self) -> &'a ElfFile<'a>
        ensures bytes { result.now.bytes.now ≡ self.now.debug }
    {
        self.debug
    }

    /// The view of both.
    pub fn view(&self) -> &View<'a>
        ensures view { result.now ≡ pair_view self.now.debug self.now.stripped }
    {
        &self.view
    }
}
