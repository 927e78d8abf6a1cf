//! The key of a run: the options that its outputs depend on (this project's profile).
//!
//! A run that was stopped is taken up again only by the same key.
use dw_paths::Maps;
use file_tree::Blob;

/// The options of a run that its outputs depend on.
#[derive(Drop, Debug)]
pub struct RunKey {
    /// Where source paths begin, and where they are to.
    pub maps: Maps,
    /// Whether build-ids are made anew.
    pub build_id: bool,
    /// What goes into each new build-id before the file.
    pub seed: Blob,
    /// Whether files that are refused are left as they are.
    pub skip: bool,
    /// The longest file that is read, in bytes.
    pub max_file: u64,
}
