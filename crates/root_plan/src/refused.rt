//! Files of a build root that are passed over.
use dw_base::Refusal;
use file_tree::Text;

/// A file that is passed over, since it is refused.
#[derive(Drop, Debug)]
pub(crate) struct Skipped {
    /// The file, below the build root.
    pub path: Text,
    /// Why.
    pub refusal: Refusal,
}
