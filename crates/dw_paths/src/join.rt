//! Joined paths: a name in its directory (DWARF 5, 6.2.4: a relative name is taken from its directory).
//!
//! `join_path` answers the definition's path.

ghost use Rattle.std.specs.Prelude.{◌≡◌, IfOk};
ghost use Rattle.dw_paths.specs.CleanPaths.{joined_path};

use dw_base::NoMemory;
use std::alloc::Global;

/// The path of a name in a directory: the name itself where it begins with a slash or the directory is
/// empty, else the directory, a slash and the name.
#[tactic(auto, unfolding(crate::specs::CleanPaths::joined_path))]
pub fn join_path(alloc: Global, dir: &[u8], name: &[u8]) -> Result<Vec<u8>, NoMemory>
    ensures value { IfOk result (λ path. path.items ≡ joined_path dir.now name.now) }
{
    if name.starts_with(b"/") || dir.is_empty() {
        return Ok(Vec::from_slice(alloc, name)?);
    }
    let mut path = Vec::new(alloc);
    path.extend_from_slice(dir)?;
    path.extend_from_slice(b"/")?;
    path.extend_from_slice(name)?;
    Ok(path)
}
