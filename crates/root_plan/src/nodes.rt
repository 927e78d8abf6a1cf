//! The nodes that a job makes of a file.
//!
//! Read first: `specs/Makers.antt`.
ghost use Rattle.std.specs.Prelude.{◌≡◌, ◌<◌, ◌≤◌, ◌++◌, true, [], length, get_or, IfOk, IfErr, OnOk};
ghost use Rattle.std.specs.String.{string_bytes};
ghost use Rattle.sha1.specs.Sha1.{sha1};
ghost use Rattle.dw_base.specs.Layout.{file_limit, output_limit};
ghost use Rattle.dw_base.specs.Texts.{same_text};
ghost use Rattle.file_tree.specs.declared.node.Node.TheVariants as node;
ghost use Rattle.root_paths.specs.Roots.{in_root};
ghost use Rattle.root_plan.specs.Targets.{targets_of, debug_name, link_target};
ghost use Rattle.job_types.specs.Modes.{not_executable};
ghost use Rattle.root_plan.specs.Makers.{link_nodes, pair_nodes, EditedNodes, NodesOf, EditEnds, SplitEnds, EditedEnds, MakeEnds};

use crate::judge::{Judge, Parts};
use crate::targets::{debug_link, debug_name, debug_path, file_link, has_links, link_target};
use dw_base::Fault;
use file_tree::{Blob, Node, Text};
use job_types::not_executable;
use root_paths::in_root;
use sha1::Sha1;
use std::alloc::{AllocError, Global};
use work_journal::MakeErr;
use work_texts::JobLine;

/// How many steps a job has: one for each of its targets.
#[tactic(auto, using(crate::proofs::MakerLaws::step_rules))]
pub(crate) fn step_count(job: &JobLine) -> u8
    ensures value { result ≡ length (targets_of job.now) }
{
    if !job.split {
        return 1;
    }
    if has_links(job) {
        return 4;
    }
    2
}

/// The target of a step, below the root.
#[tactic(auto, using(crate::proofs::MakerLaws::target_rules))]
fn target_below(alloc: Global, job: &JobLine, step: u8) -> Result<String, AllocError>
    requires there { step < length (targets_of job.now) }
    ensures value { IfOk result (λ s. string_bytes s ≡ get_or (targets_of job.now) step []) }
{
    if !job.split {
        let path = String::from_str(alloc, job.path.as_str())?;
        return Ok(path);
    }
    if step == 0 {
        let path = debug_path(alloc, job.path.as_str())?;
        return Ok(path);
    }
    if !has_links(job) {
        let path = String::from_str(alloc, job.path.as_str())?;
        return Ok(path);
    }
    if step == 1 {
        let path = file_link(alloc, job)?;
        return Ok(path);
    }
    if step == 2 {
        let path = debug_link(alloc, job)?;
        return Ok(path);
    }
    let path = String::from_str(alloc, job.path.as_str())?;
    Ok(path)
}

/// The target of a step.
pub(crate) fn target(
    alloc: Global,
    root: &str,
    job: &JobLine,
    step: u8,
) -> Result<String, AllocError>
    requires there { step < length (targets_of job.now) }
    ensures value { IfOk result (λ s. string_bytes s ≡ in_root root.now (get_or (targets_of job.now) step [])) }
{
    let path = target_below(alloc, job, step)?;
    let path = in_root(alloc, root, path.as_str())?;
    Ok(path)
}

/// A file as a node.
fn file_node(bytes: Vec<u8>, mode: u32) -> Node
    ensures value { result ≡ node.File bytes.items mode }
{
    let bytes = Blob::new(bytes);
    Node::File { bytes, mode }
}

/// A link to a path below the root, as a node.
fn link_node(alloc: Global, path: &str) -> Result<Node, AllocError>
    ensures value { IfOk result (λ n. n ≡ node.Link (link_target path.now)) }
{
    let target = link_target(alloc, path)?;
    let target = Text::new(target);
    Ok(Node::Link { target })
}

/// Adds the links of a job that has them.
#[tactic(auto, using(crate::proofs::MakerLaws::node_rules))]
fn push_links(alloc: Global, job: &JobLine, nodes: &mut Vec<Node>) -> Result<(), AllocError>
    ensures value { OnOk result (nodes.new.items ≡ nodes.old.items ++ link_nodes job.now) }
{
    if !has_links(job) {
        return Ok(());
    }
    let path = debug_path(alloc, job.path.as_str())?;
    nodes.push(link_node(alloc, job.path.as_str())?)?;
    nodes.push(link_node(alloc, path.as_str())?)?;
    Ok(())
}

/// The nodes of a split file.
#[tactic(auto, using(crate::proofs::MakerLaws::node_rules))]
fn pair_nodes(
    alloc: Global,
    job: &JobLine,
    parts: Parts,
    mode: u32,
) -> Result<Vec<Node>, AllocError>
    ensures value { IfOk result (λ v. v.items ≡ pair_nodes job.now mode (record { stripped = parts.stripped.items; debug = parts.debug.items })) }
{
    let Parts { stripped, debug } = parts;
    let mut nodes = Vec::new(alloc);
    nodes.push(file_node(debug, not_executable(mode)))?;
    push_links(alloc, job, &mut nodes)?;
    nodes.push(file_node(stripped, mode))?;
    Ok(nodes)
}

/// The edited file. The file itself isn't held any longer then.
#[tactic(auto, using(crate::proofs::MakerLaws::end_rules))]
fn edit<J: Judge>(alloc: Global, judge: &J, bytes: Blob) -> Result<Vec<u8>, MakeErr>
    requires small { length bytes ≤ file_limit }
    ensures made { IfOk result (λ file. (J.view judge.now).edits bytes file.items) }
    ensures small { IfOk result (λ file. length file.items ≤ output_limit) }
    ensures ends { IfErr result (EditEnds (J.view judge.now) (J.edit_fails judge.now) bytes) }
{
    match judge.edited(alloc, bytes.as_slice()) {
        Ok(file) => Ok(file),
        Err(Fault::Refused(refusal)) => Err(MakeErr::Refused(refusal)),
        Err(Fault::NoMemory) => Err(MakeErr::NoMemory),
    }
}

/// The two files of an edited file.
#[tactic(auto, using(crate::proofs::MakerLaws::end_rules))]
fn split<J: Judge>(alloc: Global, judge: &J, file: &[u8], name: &[u8]) -> Result<Parts, MakeErr>
    requires small { length file.now ≤ output_limit }
    ensures made { IfOk result (λ p. (J.view judge.now).pairs file.now name.now (record { stripped = p.stripped.items; debug = p.debug.items })) }
    ensures ends { IfErr result (SplitEnds (J.view judge.now) (J.split_fails judge.now) file.now name.now) }
{
    match judge.split(alloc, file, name) {
        Ok(parts) => Ok(parts),
        Err(Fault::Refused(refusal)) => Err(MakeErr::Refused(refusal)),
        Err(Fault::NoMemory) => Err(MakeErr::NoMemory),
    }
}

/// The nodes of an edited file that is split.
#[tactic(auto, using(crate::proofs::MakerLaws::end_rules))]
fn split_nodes<J: Judge>(
    alloc: Global,
    judge: &J,
    job: &JobLine,
    file: &[u8],
    mode: u32,
) -> Result<Vec<Node>, MakeErr>
    requires small { length file.now ≤ output_limit }
    requires is_split { job.now.split ≡ true }
    ensures made { IfOk result (λ v. EditedNodes (J.view judge.now) job.now file.now mode v.items) }
    ensures ends { IfErr result (SplitEnds (J.view judge.now) (J.split_fails judge.now) file.now (debug_name job.now.path)) }
{
    let name = debug_name(alloc, job.path.as_str().as_bytes())?;
    let parts = split(alloc, judge, file, &name)?;
    let nodes = pair_nodes(alloc, job, parts, mode)?;
    Ok(nodes)
}

/// The nodes of an edited file.
#[tactic(auto, using(crate::proofs::MakerLaws::end_rules))]
fn edited_nodes<J: Judge>(
    alloc: Global,
    judge: &J,
    job: &JobLine,
    file: Vec<u8>,
    mode: u32,
) -> Result<Vec<Node>, MakeErr>
    requires small { length file.items ≤ output_limit }
    ensures made { IfOk result (λ v. EditedNodes (J.view judge.now) job.now file.items mode v.items) }
    ensures ends { IfErr result (EditedEnds (J.view judge.now) (J.split_fails judge.now) job.now file.items) }
{
    if job.split {
        let nodes = split_nodes(alloc, judge, job, &file, mode)?;
        return Ok(nodes);
    }
    let mut nodes = Vec::new(alloc);
    nodes.push(file_node(file, mode))?;
    Ok(nodes)
}

/// The digest of a file.
pub fn digest_of(bytes: &Blob) -> [u8; 20]
    ensures value { result ≡ sha1 bytes.now }
{
    Sha1::digest(bytes.as_slice())
}

/// Whether a file has this digest.
pub fn has_digest(bytes: &Blob, digest: &[u8; 20]) -> bool
    ensures value { result ≡ same_text (sha1 bytes.now) digest.now }
{
    digest_of(bytes).as_slice() == digest.as_slice()
}

/// The nodes that a job makes of a file.
#[tactic(auto, using(crate::proofs::MakerLaws::make_rules))]
pub(crate) fn make_nodes<J: Judge>(
    alloc: Global,
    judge: &J,
    job: &JobLine,
    bytes: Blob,
    mode: u32,
) -> Result<Vec<Node>, MakeErr>
    requires small { length bytes ≤ file_limit }
    ensures made { IfOk result (λ v. NodesOf (J.view judge.now) job.now bytes mode v.items) }
    ensures ends { IfErr result (MakeEnds (J.view judge.now) (J.edit_fails judge.now) (J.split_fails judge.now) job.now bytes mode) }
{
    if !has_digest(&bytes, &job.digest) {
        return Err(MakeErr::Changed {
            planned: job.digest,
            found: digest_of(&bytes),
        });
    }
    let file = edit(alloc, judge, bytes)?;
    let nodes = edited_nodes(alloc, judge, job, file, mode)?;
    Ok(nodes)
}
