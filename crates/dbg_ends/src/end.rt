//! The ends of commands.
ghost use Rattle.std.specs.Prelude.{◌≡◌};
ghost use Rattle.dbg_ends.specs.Ends.{status_of};

use dw_base::Refusal;
use dw_view::Mismatch;
use file_tree::{Text, TreeErr};
use std::alloc::AllocError;
use work_texts::WorkFile;

/// How a command ends. Each end has a status and, but for `Done`, one line on the error sink.
#[derive(Drop, Debug)]
pub enum End {
    /// The command is done.
    Done,
    /// The words aren't a command.
    Usage,
    /// The file at the path is refused.
    Refused { path: Text, refusal: Refusal },
    /// Nothing is at the path.
    Absent { path: Text },
    /// A folder is at the path, where a file is wanted.
    Folder { path: Text },
    /// A symbolic link is at the path, where a file is wanted.
    Link { path: Text },
    /// A folder or a symbolic link is at the path, where a file is to be put.
    Taken { path: Text },
    /// The file at the path has this many bytes, more than may be read.
    Limit { path: Text, size: u64 },
    /// More paths lie below the build root than may.
    Entries,
    /// The path is longer than a path may be.
    LongPath { path: Text },
    /// The plan of a run would have more bytes than may be read.
    LongPlan,
    /// The work folder is of a run with another key, of which the field of this number is the first that differs.
    OtherRun { field: u8 },
    /// The file at the path isn't the one that was planned.
    Changed { path: Text },
    /// The text of the work folder isn't one that this program writes: its first bad field begins at this place.
    PlanText { file: WorkFile, at: u64 },
    /// A call of the tree failed.
    TreeFault,
    /// A write to the output failed.
    OutputFault,
    /// A stripped file and a debug file aren't a pair, for this reason.
    NotAPair(Mismatch),
    /// A stripped file and a debug file don't match: this is the first place, counted from 0, at which the sections that
    /// they should share differ; 0, too, where the two don't match as a whole.
    Unmatched { place: u32 },
    /// There was not enough memory.
    NoMemory,
}

impl From<AllocError> for End {
    ghost use Rattle.dbg_ends.specs.declared.end.End.TheVariants.{NoMemory};

    ghost from_gives = { λ _ e. e ≡ NoMemory };

    fn from(_e: AllocError) -> End {
        End::NoMemory
    }
}

impl From<TreeErr> for End {
    ghost use Rattle.dbg_ends.specs.Ends.{end_of_tree};

    ghost from_gives = { λ t e. e ≡ end_of_tree t };

    fn from(e: TreeErr) -> End {
        match e {
            TreeErr::Failed => End::TreeFault,
            TreeErr::NoMemory => End::NoMemory,
        }
    }
}

/// The exit status of an end.
pub fn status(end: &End) -> u8
    ensures status { result ≡ status_of end.now }
{
    match end {
        End::Done => 0,
        End::Usage => 2,
        End::Refused { .. } => 3,
        End::Absent { .. } => 4,
        End::Folder { .. } => 4,
        End::Link { .. } => 4,
        End::Taken { .. } => 5,
        End::TreeFault => 6,
        End::OutputFault => 7,
        End::Limit { .. } => 8,
        End::Entries => 8,
        End::LongPath { .. } => 8,
        End::LongPlan => 8,
        End::OtherRun { .. } => 9,
        End::Changed { .. } => 10,
        End::PlanText { .. } => 11,
        End::NotAPair(_) => 12,
        End::NoMemory => 13,
        End::Unmatched { .. } => 15,
    }
}
