//! Plain paths: which paths lie below a folder and are written in one way only (this project's
//! profile; components as in POSIX, "Pathname Resolution").
//!
//! `is_plain` answers what its definition says, and takes no memory.

ghost use Rattle.std.specs.Prelude.{◌≡◌};
ghost use Rattle.std.specs.List.{list_all};
ghost use Rattle.dw_paths.specs.Components.{components, is_name};
ghost use Rattle.dw_paths.specs.PlainPaths.{is_plain};

/// Whether a path is plain: it isn't empty, has no NUL, doesn't begin with a slash, and none of its
/// components is empty, `.` or `..`.
#[tactic(auto, unfolding(crate::specs::PlainPaths::is_plain))]
pub fn is_plain(path: &[u8]) -> bool
    ensures value { result ≡ is_plain path.now }
{
    !path.is_empty() && !path.contains(&0) && !path.starts_with(b"/") && are_names(path)
}

/// Whether each component of the path is a name.
fn are_names(path: &[u8]) -> bool
    ensures value { result ≡ list_all is_name (components path.now) }
{
    path.split(|b| *b == b'/').all(|part| is_name(part))
}

/// Whether the component is neither empty nor `.` nor `..`.
fn is_name(part: &[u8]) -> bool
    ensures value { result ≡ is_name part.now }
{
    !part.is_empty() && part != b".".as_slice() && part != b"..".as_slice()
}
