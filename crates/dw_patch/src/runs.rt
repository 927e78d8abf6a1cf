//! Where the bytes of a section come to stand, by runs of bytes that stay together.
//!
//! Read first: `specs/Runs.antt` of `elf_relocs`, then `specs/RecordMoves.antt`.

ghost use Rattle.std.specs.Prelude.{◌≡◌, ◌+◌, ◌-◌, ◌<◌, ◌≤◌, ◌^◌, IfErr, IfOk};
ghost use Rattle.dw_patch.specs.RecordMoves.{HasKey, IsGap, SplitsRuns};
ghost use Rattle.elf_relocs.specs.Runs.{RunsRise, place_by, run_start};

use elf_relocs::Run;

/// Where the byte at a place comes to stand: before the first run it stays. It is found in a time that grows with the logarithm of the
/// number of runs.
#[tactic(auto, using(crate::proofs::RunLaws::place_rules))]
pub(crate) fn place_by(runs: &[Run], place: u64) -> u64
    requires rise { RunsRise runs.now }
    requires fits { place_by runs.now place < 2 ^ 64 }
    ensures place { result ≡ place_by runs.now place }
{
    let count = runs_up_to(runs, place);
    if count == 0 {
        return place;
    }
    moved_by(&runs[count - 1], place)
}

/// Where the byte at a place comes to stand by a run that begins there or before it.
fn moved_by(run: &Run, place: u64) -> u64
    requires below { run.now.old ≤ place }
    requires fits { run.now.new + (place - run.now.old) < 2 ^ 64 }
    ensures place { result ≡ run.now.new + (place - run.now.old) }
{
    run.new + (place - run.old)
}

/// How many runs begin at a place or before it.
#[tactic(auto, using(crate::proofs::RunLaws::split_rules))]
fn runs_up_to(runs: &[Run], place: u64) -> usize
    requires rise { RunsRise runs.now }
    ensures split { SplitsRuns runs.now place result }
{
    match run_at(runs, place) {
        Ok(at) => at + 1,
        Err(at) => at,
    }
}

/// Which run begins at a place, or where it would stand.
fn run_at(runs: &[Run], place: u64) -> Result<usize, usize>
    requires rise { RunsRise runs.now }
    ensures found { IfOk result (HasKey run_start runs.now place) }
    ensures absent { IfErr result (IsGap run_start runs.now place) }
{
    runs.binary_search_by_key(&place, |r| r.old)
}
