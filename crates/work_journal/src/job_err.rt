//! Why a job of a run isn't taken, inside of the run.
//!
//! Read first: `specs/Blames.antt`.
ghost use Rattle.std.specs.Prelude.{◌≡◌, ◌⊎◌};
ghost use Rattle.work_journal.specs.declared.job_err.JobErr.TheVariants.{NoMemory as no_memory};
ghost use Rattle.work_journal.specs.Files.{make_stops};
ghost use Rattle.work_journal.specs.Blames.{OfJob, run_stops, run_fault};
ghost use Rattle.work_texts.specs.declared.journal_err.JournalErr.TheVariants as run;

use crate::maker::{MakeErr, Maker};
use dw_base::Refusal;
use file_tree::{Text, TreeErr};
use std::alloc::{AllocError, Global};
use work_texts::JournalErr;

/// Why a job isn't taken.
#[derive(Drop, Debug)]
pub(crate) enum JobErr {
    /// Its file isn't the planned one, by the digests; `None` where no file of the allowed length is
    /// there.
    Changed {
        job: u32,
        planned: [u8; 20],
        found: Option<[u8; 20]>,
    },
    /// Its file is refused.
    Refused {
        job: u32,
        refusal: Refusal,
    },
    /// The tree's count of faults rose.
    Tree,
    /// There was not enough memory.
    NoMemory,
}

impl From<AllocError> for JobErr {
    ghost from_gives = { λ _ e. e ≡ no_memory };

    fn from(_e: AllocError) -> JobErr {
        JobErr::NoMemory
    }
}

impl From<TreeErr> for JobErr {
    ghost use Rattle.work_journal.specs.Files.{tree_stops};

    ghost from_gives = { λ t e. e ≡ tree_stops t };

    fn from(e: TreeErr) -> JobErr {
        match e {
            TreeErr::Failed => JobErr::Tree,
            TreeErr::NoMemory => JobErr::NoMemory,
        }
    }
}

/// The error of a job whose nodes aren't made.
pub(crate) fn unmade(job: u32, e: MakeErr) -> JobErr
    ensures value { result ≡ make_stops job e }
{
    match e {
        MakeErr::Changed { planned, found } => JobErr::Changed {
            job,
            planned,
            found: Some(found),
        },
        MakeErr::Refused(refusal) => JobErr::Refused { job, refusal },
        MakeErr::NoMemory => JobErr::NoMemory,
    }
}

/// The error of the run, which names the job's file by its path; or want of memory.
pub(crate) fn named<M: Maker>(alloc: Global, maker: &M, e: JobErr) -> JournalErr
    requires job { OfJob (M.view maker.now) e }
    ensures value { (result ≡ run_stops (M.view maker.now) e) ⊎ (result ≡ run.NoMemory) }
{
    match e {
        JobErr::Changed {
            job,
            planned,
            found,
        } => match maker.source(alloc, job) {
            Ok(path) => JournalErr::Changed {
                path: Text::new(path),
                planned,
                found,
            },
            Err(_) => JournalErr::NoMemory,
        },
        JobErr::Refused { job, refusal } => match maker.source(alloc, job) {
            Ok(path) => JournalErr::Refused {
                path: Text::new(path),
                refusal,
            },
            Err(_) => JournalErr::NoMemory,
        },
        JobErr::Tree => JournalErr::Tree,
        JobErr::NoMemory => JournalErr::NoMemory,
    }
}

/// The error of the run where a call of the tree failed.
pub(crate) fn stopped(e: TreeErr) -> JournalErr
    ensures value { result ≡ run_fault e }
{
    match e {
        TreeErr::Failed => JournalErr::Tree,
        TreeErr::NoMemory => JournalErr::NoMemory,
    }
}
