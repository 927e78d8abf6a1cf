//! The modes of files that a split makes (this project's profile).
ghost use Rattle.std.specs.Prelude.{◌≡◌};
ghost use Rattle.job_types.specs.Modes.{not_executable};

/// The bits of a mode by which a file may be executed.
const EXECUTABLE: u32 = 0o111;

/// A mode, of which no one may execute the file.
pub fn not_executable(mode: u32) -> u32
    ensures value { result ≡ not_executable mode }
{
    mode & !EXECUTABLE
}
