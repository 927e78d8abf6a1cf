//! The top call: a run of the program, from its words to its status.
ghost use Rattle.std.specs.Prelude.{◌≡◌, ◌≢◌, ◌⊎◌, ℕ, None, Some};
ghost use Rattle.std.specs.Option.{ForSome};
ghost use Rattle.file_tree.specs.Seen.{now_of};
ghost use Rattle.file_tree.specs.Trees.{TreeMap};
ghost use Rattle.file_tree.specs.Heard.{Heard};
ghost use Rattle.file_tree.specs.Causes.{Rose};
ghost use Rattle.dbg_ends.specs.Ends.{status_of};
ghost use Rattle.dbg_ends.specs.Due.{IsCut, IsRefusal, Exactly};
ghost use Rattle.dbg_ends.specs.Told.{Ended};
ghost use Rattle.dbg_words.specs.Words.{texts};
ghost use Rattle.dbg_words.specs.declared.command.Command.TheVariants.{Edit};
ghost use Rattle.dbg_run.specs.Built.{built};
ghost use Rattle.dbg_run.specs.Runs.{Cuts, EditWays, Ends, EndsFinal, EndsMild, Done, Due, JoinsParts, LeavesPartway, MayWrite, RefusesPlanned, SettlesSeldom, Starts, StepsOfCore, Unopposed, KeepsLoaded, KeepsMeaning, KeptBy, LeavesNothing, OnlyOutputs, OutputFails};

use crate::built::built;
use crate::edit::{edit, edit_listed};
use crate::exercise::exercise;
use crate::gather::gather_into;
use crate::run_root::run_over;
use crate::show::show;
use crate::split::split;
use crate::unstrip::unstrip;
use dbg_ends::{End, tell};
use dbg_words::Command;
use file_tree::{Sink, Text, Tree};
use job_types::Options;
use std::alloc::Global;

/// How the edit of the input ends, which lists its sources where a path for the list is given.
fn edit_command<T: Tree>(
    alloc: Global,
    input: &str,
    output: &str,
    options: &Options,
    list: &Option<Text>,
    tree: &mut T,
) -> End
    ensures ends { EditWays input.now output.now list.now options.now options.now.max_file (T.seen tree.old) (T.seen tree.new) result }
    ensures done { 0 ≡ status_of result → (h : Heard) → Done (Some (Edit input.now output.now options.now list.now)) (T.seen tree.old) (T.seen tree.new) h h }
    ensures due { ForSome (now_of (T.seen tree.old)) (λ t. Due (Some (Edit input.now output.now options.now list.now)) t (status_of result) ⊎ IsCut (status_of result)) }
    ensures not_usage { 2 ≢ status_of result }
    ensures not_output { 7 ≢ status_of result }
    ensures fault { status_of result ≡ 6 → Rose (T.seen tree.old).faults (T.seen tree.new).faults }
    ensures kept { IsRefusal (status_of result) → now_of (T.seen tree.new) ≡ now_of (T.seen tree.old) }
    ensures others { OnlyOutputs (Some (Edit input.now output.now options.now list.now)) (T.seen tree.old) (T.seen tree.new) }
    ensures tells { (T.seen tree.new).tells ≡ (T.seen tree.old).tells }
{
    match list {
        None => edit(alloc, input, output, options, tree),
        Some(list) => edit_listed(alloc, input, output, list.as_str(), options, tree),
    }
}

/// How the command of these words ends.
#[tactic(auto, using(crate::proofs::Rows::run_rows))]
fn run_command<T: Tree, O: Sink>(alloc: Global, words: &[String], tree: &mut T, out: &mut O) -> End
    ensures ends { Ends (texts words.now) (T.seen tree.old) (T.seen tree.new) (O.heard out.old) (O.heard out.new) result }
    ensures done { 0 ≡ status_of result → Done (built (texts words.now)) (T.seen tree.old) (T.seen tree.new) (O.heard out.old) (O.heard out.new) }
    ensures due { ForSome (now_of (T.seen tree.old)) (λ t. Due (built (texts words.now)) t (status_of result) ⊎ Cuts (built (texts words.now)) t (status_of result)) }
    ensures usage { status_of result ≡ 2 → built (texts words.now) ≡ None }
    ensures no_command { built (texts words.now) ≡ None → (status_of result ≡ 2) ⊎ (status_of result ≡ 13) }
    ensures fault { status_of result ≡ 6 → Rose (T.seen tree.old).faults (T.seen tree.new).faults }
    ensures output_fault { status_of result ≡ 7 → OutputFails (built (texts words.now)) (O.heard out.old) (O.heard out.new) }
    ensures kept { KeptBy (built (texts words.now)) (status_of result) → now_of (T.seen tree.new) ≡ now_of (T.seen tree.old) }
    ensures others { OnlyOutputs (built (texts words.now)) (T.seen tree.old) (T.seen tree.new) }
    ensures silent { (MayWrite (built (texts words.now)) (status_of result) → ⊥) → O.heard out.new ≡ O.heard out.old }
    ensures starts { Starts (built (texts words.now)) (T.seen tree.old) (T.seen tree.new) (O.heard out.old) (O.heard out.new) (status_of result) }
    ensures tells { (T.seen tree.new).tells ≡ (T.seen tree.old).tells }
{
    let Ok(read) = built(alloc, words) else {
        return End::NoMemory;
    };
    let Some(command) = read else {
        return End::Usage;
    };
    match command {
        Command::Edit {
            input,
            output,
            options,
            list,
        } => edit_command(
            alloc,
            input.as_str(),
            output.as_str(),
            &options,
            &list,
            tree,
        ),
        Command::Split {
            input,
            stripped,
            debug,
        } => split(
            alloc,
            input.as_str(),
            stripped.as_str(),
            debug.as_str(),
            tree,
        ),
        Command::Show { file, debug } => show(alloc, file.as_str(), &debug, tree, out),
        Command::Unstrip {
            stripped,
            debug,
            output,
        } => unstrip(
            alloc,
            stripped.as_str(),
            debug.as_str(),
            output.as_str(),
            tree,
        ),
        Command::Run {
            root,
            options,
            jobs,
        } => run_over(alloc, root, &options, jobs, tree, out),
        Command::Gather {
            root,
            from,
            dest,
            jobs,
        } => gather_into(alloc, &root, &from, &dest, jobs, tree, out),
        Command::Exercise { seed, units } => exercise(alloc, seed, units, out),
        _ => End::Usage,
    }
}

/// The status of the command of these words, whose line goes to the error sink.
#[tactic(auto, using(crate::proofs::RunRows::told_rows))]
fn run_told<T: Tree, O: Sink, E: Sink>(
    alloc: Global,
    words: &[String],
    tree: &mut T,
    out: &mut O,
    err: &mut E,
) -> u8
    ensures ended { Ended (Ends (texts words.now) (T.seen tree.old) (T.seen tree.new) (O.heard out.old) (O.heard out.new)) (E.heard err.old) (E.heard err.new) result }
    ensures due { ForSome (now_of (T.seen tree.old)) (λ t. Due (built (texts words.now)) t result ⊎ Cuts (built (texts words.now)) t result) }
    ensures done { result ≡ 0 → Done (built (texts words.now)) (T.seen tree.old) (T.seen tree.new) (O.heard out.old) (O.heard out.new) }
    ensures usage { result ≡ 2 → built (texts words.now) ≡ None }
    ensures no_command { built (texts words.now) ≡ None → (result ≡ 2) ⊎ (result ≡ 13) }
    ensures fault { result ≡ 6 → Rose (T.seen tree.old).faults (T.seen tree.new).faults }
    ensures output_fault { result ≡ 7 → OutputFails (built (texts words.now)) (O.heard out.old) (O.heard out.new) }
    ensures kept { KeptBy (built (texts words.now)) result → now_of (T.seen tree.new) ≡ now_of (T.seen tree.old) }
    ensures others { OnlyOutputs (built (texts words.now)) (T.seen tree.old) (T.seen tree.new) }
    ensures quiet { result ≡ 0 → E.heard err.new ≡ E.heard err.old }
    ensures silent { (MayWrite (built (texts words.now)) result → ⊥) → O.heard out.new ≡ O.heard out.old }
    ensures starts { Starts (built (texts words.now)) (T.seen tree.old) (T.seen tree.new) (O.heard out.old) (O.heard out.new) result }
    ensures tells { (T.seen tree.new).tells ≡ (T.seen tree.old).tells }
{
    let end = run_command(alloc, words, tree, out);
    tell(alloc, &end, err)
}

/// Runs the program on these words: its status. Its text goes to the output, and at each status but 0
/// its one line to the error sink.
#[tactic(auto, using(crate::proofs::RunRows::exact_rows))]
pub fn run_words<T: Tree, O: Sink, E: Sink>(
    alloc: Global,
    words: &[String],
    tree: &mut T,
    out: &mut O,
    err: &mut E,
) -> u8
    ensures ended { Ended (Ends (texts words.now) (T.seen tree.old) (T.seen tree.new) (O.heard out.old) (O.heard out.new)) (E.heard err.old) (E.heard err.new) result }

    // Where the tree tells, each status comes exactly where it is due. Usage does on every tree, want of
    // memory aside.
    ensures exact { ForSome (now_of (T.seen tree.old)) (λ t. (n : ℕ) → Exactly (Cuts (built (texts words.now)) t) result n (Due (built (texts words.now)) t n)) }
    ensures usage { result ≡ 2 → built (texts words.now) ≡ None }
    ensures no_command { built (texts words.now) ≡ None → (result ≡ 2) ⊎ (result ≡ 13) }
    ensures fault { result ≡ 6 → Rose (T.seen tree.old).faults (T.seen tree.new).faults }
    ensures output_fault { result ≡ 7 → OutputFails (built (texts words.now)) (O.heard out.old) (O.heard out.new) }

    // Where nothing is against the command, and no fault came, it is done, want of memory aside.
    ensures completes { ForSome (now_of (T.seen tree.old)) (λ t. Unopposed (built (texts words.now)) (T.seen tree.old) t → (Rose (T.seen tree.old).faults (T.seen tree.new).faults → ⊥) → (OutputFails (built (texts words.now)) (O.heard out.old) (O.heard out.new) → ⊥) → (result ≡ 0) ⊎ (result ≡ 13)) }

    // So is the joining of the two files into which a file was split, where there is room for the file of both.
    ensures parts { (t : TreeMap) → JoinsParts (built (texts words.now)) t → Unopposed (built (texts words.now)) (T.seen tree.old) t }

    // At 0 the command is done, and the error sink isn't called; a refusal leaves the tree as it was, of a run one that comes before it has a plan.
    ensures done { result ≡ 0 → Done (built (texts words.now)) (T.seen tree.old) (T.seen tree.new) (O.heard out.old) (O.heard out.new) }
    ensures quiet { result ≡ 0 → E.heard err.new ≡ E.heard err.old }
    ensures kept { KeptBy (built (texts words.now)) result → now_of (T.seen tree.new) ≡ now_of (T.seen tree.old) }

    // The debug data of the output mean what those of the input meant, with the map applied once to each source path; those of
    // a stripped file and its debug file together mean what those of the input meant; and what is loaded is as it was. Where the two
    // files of a file that was split are joined, the file of both has the sections of that one, under their numbers, and means what it
    // means, and what is loaded is as it was in that one. Where a run is done, so it is of the outputs of each of its jobs and of the file
    // that stood there before the run, whichever start made them.
    ensures meaning { result ≡ 0 → KeepsMeaning (built (texts words.now)) (T.seen tree.old) (T.seen tree.new) }
    ensures loaded { result ≡ 0 → KeepsLoaded (built (texts words.now)) (T.seen tree.old) (T.seen tree.new) }

    // No text is left in the output that none of its fields names; so it is of the outputs of each job of a run.
    ensures leavings { result ≡ 0 → LeavesNothing (built (texts words.now)) (T.seen tree.old) (T.seen tree.new) }

    // A run may be stopped at any moment, and started again by the same words. Whatever the status, all that a stop may leave at any moment
    // since this start is partway through the run, so that the next start goes on from there. Where it comes to its end, the tree is
    // that of a run that knows of no stops, no stop leaves another one, and exactly its report went out. What it does to the tree are the
    // steps of the core that the tree shows; the tree is asked to settle few times; and no text or file of its own stops it.
    ensures images { (start : TreeMap) → LeavesPartway (built (texts words.now)) start (T.seen tree.old) (T.seen tree.new) }
    ensures undisturbed { (start : TreeMap) → EndsFinal (built (texts words.now)) result start (T.seen tree.old) (T.seen tree.new) (O.heard out.old) (O.heard out.new) }
    ensures steps { (start : TreeMap) → StepsOfCore (built (texts words.now)) result start (T.seen tree.old) (T.seen tree.new) }
    ensures settles { (start : TreeMap) → SettlesSeldom (built (texts words.now)) start (T.seen tree.old) (T.seen tree.new) }
    ensures mild { (start : TreeMap) → EndsMild (built (texts words.now)) result start (T.seen tree.old) }
    ensures passed { RefusesPlanned (built (texts words.now)) result (T.seen tree.old) }

    // At every status all but the command's outputs is as it was. To the output sink nothing went, but where a showing is done, or was cut
    // after it had begun to write, and where a run or an exercise has come to its end.
    ensures others { OnlyOutputs (built (texts words.now)) (T.seen tree.old) (T.seen tree.new) }
    ensures silent { (MayWrite (built (texts words.now)) result → ⊥) → O.heard out.new ≡ O.heard out.old }
    ensures tells { (T.seen tree.new).tells ≡ (T.seen tree.old).tells }
{
    run_told(alloc, words, tree, out, err)
}
