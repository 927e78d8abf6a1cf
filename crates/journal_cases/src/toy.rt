//! A small maker: each job has a file, and makes two files of it.
ghost use Rattle.std.specs.Prelude.{◌≡◌, ◌++◌, ◌∷◌, [], IfOk, get_or};
ghost use Rattle.file_tree.specs.declared.node.Node.TheVariants as node;

use file_tree::{Blob, Node};
use std::alloc::{AllocError, Global};
use work_journal::{MakeErr, Maker};

/// So many jobs, whose files begin with this byte.
#[derive(Drop)]
pub struct Toy {
    /// How many jobs.
    pub jobs: u32,
    /// The byte.
    pub first: u8,
}

/// The first byte, or 0.
fn first_of(bytes: &[u8]) -> u8
    ensures first { result ≡ get_or bytes.now 0 0 }
{
    if bytes.is_empty() { 0 } else { bytes[0] }
}

/// The bytes and one more, as a file.
fn grown(alloc: Global, bytes: &[u8], last: u8, mode: u32) -> Result<Node, AllocError>
    ensures grown { IfOk result (λ n. n ≡ node.File (bytes.now ++ last ∷ []) mode) }
{
    let mut more = Vec::from_slice(alloc, bytes)?;
    more.push(last)?;
    let bytes = Blob::new(more);
    Ok(Node::File { bytes, mode })
}

/// The two nodes of a file.
fn nodes_of(alloc: Global, bytes: &[u8], mode: u32) -> Result<Vec<Node>, AllocError>
    ensures nodes { IfOk result (λ v. v.items ≡ node.File (bytes.now ++ 100 ∷ []) mode ∷ node.File (bytes.now ++ 115 ∷ []) mode ∷ []) }
{
    let mut nodes = Vec::new(alloc);
    nodes.push(grown(alloc, bytes, b'd', mode)?)?;
    nodes.push(grown(alloc, bytes, b's', mode)?)?;
    Ok(nodes)
}

#[tactic(auto, using(crate::proofs::ToyLaws::toy_made))]
impl Maker for Toy {
    ghost use Rattle.journal_cases.specs.Toys.{toy_view, toy_makes, toy_fits};

    ghost view = { λ m. toy_view m.jobs m.first };

    ghost makes = { λ m. toy_makes m.first };

    ghost refuses = { λ m j bytes r. ⊥ };

    fn jobs(&self) -> u32 {
        self.jobs
    }

    fn steps(&self, _job: u32) -> u8 {
        2
    }

    fn source(&self, alloc: Global, job: u32) -> Result<String, AllocError> {
        format!(in alloc; "r/{job}")
    }

    fn target(&self, alloc: Global, job: u32, step: u8) -> Result<String, AllocError> {
        if step == 0 {
            format!(in alloc; "r/d/{job}")
        } else {
            format!(in alloc; "r/{job}")
        }
    }

    fn planned(&self, _job: u32) -> [u8; 20] {
        [self.first; 20]
    }

    fn make(
        &mut self,
        alloc: Global,
        _job: u32,
        bytes: Blob,
        mode: u32,
    ) -> Result<Vec<Node>, MakeErr> {
        let first = first_of(bytes.as_slice());
        if first != self.first {
            return Err(MakeErr::Changed {
                planned: [self.first; 20],
                found: [first; 20],
            });
        }
        let nodes = nodes_of(alloc, bytes.as_slice(), mode)?;
        Ok(nodes)
    }

    ghost fits = { λ m. toy_fits m.jobs m.first };
}
