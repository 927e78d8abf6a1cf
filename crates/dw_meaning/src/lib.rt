//! What debug data mean, what an edit makes of them, and why a file is refused: definitions and laws alone.
//!
//! This layer promises: the output that is defined for a file means what the file means, with the prefix map applied
//! once to each source path, and its loaded bytes are the file's (`proofs/FileMeaningLaws.antt`,
//! `proofs/LoadedLaws.antt`); a file means one thing at most; no row of a refusal holds of a file that is taken.
//! It does not promise: that a program makes that output; `dw_rewrite` does.
//! Read first: `specs/FileMeanings.antt`, then `specs/EditRows.antt`.
#![tactic(auto)]
