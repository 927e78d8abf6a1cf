//! Paths of a build root.
//!
//! Read first: `specs/Roots.antt`.
ghost use Rattle.std.specs.Prelude.{◌≡◌, ◌∷◌, ◌++◌, [], true, false, not, ◌&&◌, nat_eq, ℕ, List, length, drop, IfOk, MatchOption};
ghost use Rattle.std.specs.String.{string_bytes};
ghost use Rattle.std.specs.List.{starts_with};
ghost use Rattle.root_paths.specs.Folders.{AreFronts};
ghost use Rattle.root_paths.specs.Roots.{in_root, work_folder, debug_folder, is_outside, may_be_candidate, below_root, base_name};

use std::alloc::{AllocError, Global};
use std::marker::Model;

/// A build root, with what paths below it and below its folders begin with.
#[derive(Drop)]
pub struct Root {
    path: String,
    front: String,
    work: String,
    debug: String,
}

impl Model for Root {
    ghost Value = { List ℕ };

    ghost view = { λ r. string_bytes r.path };

    ghost invariant = { λ r. AreFronts (string_bytes r.path) (string_bytes r.front) (string_bytes r.work) (string_bytes r.debug) };
}

/// A path below the root, as one of the tree.
pub fn in_root(alloc: Global, root: &str, path: &str) -> Result<String, AllocError>
    ensures value { IfOk result (λ s. string_bytes s ≡ in_root root.now path.now) }
{
    format!(in alloc; "{root}/{path}")
}

/// What paths below the root begin with.
fn root_front(alloc: Global, root: &str) -> Result<String, AllocError>
    ensures value { IfOk result (λ s. string_bytes s ≡ root.now ++ 47 ∷ []) }
{
    format!(in alloc; "{root}/")
}

/// The folder of a run's own files, below the root.
#[tactic(auto, unfolding(crate::specs::Roots::work_folder))]
pub fn work_folder(alloc: Global, root: &str) -> Result<String, AllocError>
    ensures value { IfOk result (λ s. string_bytes s ≡ work_folder root.now) }
{
    format!(in alloc; "{root}/.dbgwork")
}

/// What paths below the work folder begin with.
#[tactic(auto, using(crate::proofs::NameLaws::front_rules))]
fn work_front(alloc: Global, root: &str) -> Result<String, AllocError>
    ensures value { IfOk result (λ s. string_bytes s ≡ work_folder root.now ++ 47 ∷ []) }
{
    let front = format!(in alloc; "{root}/.dbgwork/")?;
    Ok(front)
}

/// What paths below the folder of debug files begin with.
#[tactic(auto, using(crate::proofs::NameLaws::front_rules))]
fn debug_front(alloc: Global, root: &str) -> Result<String, AllocError>
    ensures value { IfOk result (λ s. string_bytes s ≡ debug_folder root.now ++ 47 ∷ []) }
{
    let front = format!(in alloc; "{root}/usr/lib/debug/")?;
    Ok(front)
}

/// What stands behind this front of a path, if it begins with it.
#[tactic(auto, using(crate::proofs::NameLaws::strip_rules))]
fn behind<'a>(front: &str, path: &'a str) -> Option<&'a str>
    ensures value { MatchOption result (starts_with nat_eq path.now front.now ≡ false) (λ rest. (starts_with nat_eq path.now front.now ≡ true) × (rest.now ≡ drop (length front.now) path.now)) }
{
    let rest = path.strip_prefix(front)?;
    Some(rest)
}

/// Whether a path begins with this front.
pub(crate) fn begins(front: &str, path: &str) -> bool
    ensures value { result ≡ starts_with nat_eq path.now front.now }
{
    path.as_bytes().starts_with(front.as_bytes())
}

/// Whether a path begins with neither front.
fn is_apart(work: &str, debug: &str, path: &str) -> bool
    ensures value { result ≡ (not (starts_with nat_eq path.now work.now) && not (starts_with nat_eq path.now debug.now)) }
{
    !begins(work, path) && !begins(debug, path)
}

impl Root {
    /// The root at a path.
    #[tactic(auto, using(crate::proofs::NameLaws::root_rules))]
    pub fn new(alloc: Global, path: &str) -> Result<Root, AllocError>
        ensures value { IfOk result (λ r. r ≡ path.now) }
    {
        let front = root_front(alloc, path)?;
        let work = work_front(alloc, path)?;
        let debug = debug_front(alloc, path)?;
        let path = String::from_str(alloc, path)?;
        Ok(Root {
            path,
            front,
            work,
            debug,
        })
    }

    /// Its path.
    pub fn as_str(&self) -> &str
        ensures value { result.now ≡ self.now }
    {
        self.path.as_str()
    }

    /// Whether a path lies outside the work folder.
    #[tactic(auto, using(crate::proofs::NameLaws::root_rules))]
    pub fn is_outside(&self, path: &str) -> bool
        ensures value { result ≡ is_outside self.now path.now }
    {
        !begins(self.work.as_str(), path)
    }

    /// The path below the root, where a file at the path is a candidate.
    #[tactic(auto, using(crate::proofs::NameLaws::root_rules))]
    pub fn candidate<'a>(&self, path: &'a str) -> Option<&'a str>
        ensures value { MatchOption result (may_be_candidate self.now path.now ≡ false) (λ below. (may_be_candidate self.now path.now ≡ true) × (below.now ≡ below_root self.now path.now)) }
    {
        if !is_apart(self.work.as_str(), self.debug.as_str(), path) {
            return None;
        }
        let below = behind(self.front.as_str(), path)?;
        Some(below)
    }
}

/// The last component of a path.
#[tactic(auto, using(crate::proofs::NameLaws::base_rules))]
pub fn base_name(path: &[u8]) -> &[u8]
    ensures value { result.now ≡ base_name path.now }
{
    let mut start = path.len();
    'bytes: while start > 0 {
        if path[start - 1] == b'/' {
            return &path[start..];
        }
        start -= 1;
    }
    path
}
