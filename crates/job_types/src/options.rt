//! The options of a command that rewrites files.
ghost use Rattle.job_types.specs.Settings.{Settings, IsWithin};

use dw_base::FILE_LIMIT;
use dw_paths::Maps;
use file_tree::Blob;
use std::marker::Model;

/// The longest file that may be asked for, in bytes.
pub const MOST_FILE: u64 = FILE_LIMIT;

/// What a user wants done with files.
#[derive(Drop)]
pub struct Options {
    /// Where source paths begin, and where they are to.
    pub maps: Maps,
    /// Whether build-ids are made anew.
    pub build_id: bool,
    /// What a new build-id is made of, beside the file.
    pub seed: Blob,
    /// Whether a file that is refused is passed over.
    pub skip: bool,
    /// The longest file that is read, in bytes: 1 to 2^30.
    pub max_file: u64,
    /// Whether a path that stands in its value and would grow is moved to a table of texts before.
    pub grow_inline: bool,
}

impl Model for Options {
    ghost Value = { Settings };

    ghost view = { λ o. record {
      maps = o.maps;
      build_id = o.build_id;
      seed = o.seed;
      skip = o.skip;
      max_file = o.max_file;
      grow_inline = o.grow_inline;
    } };

    ghost invariant = { λ o. IsWithin o.max_file };
}
