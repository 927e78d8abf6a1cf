//! Paths that stand in their values and would grow, as offsets into `.debug_str`: definitions and laws. No call. This project's profile.
//!
//! Its laws say: a lifted file can be read, and means the filled meaning (`proofs/LiftMeaningLaws.antt`).
//! Where no row of `LiftRows` holds a file with such a path can be lifted (`proofs/RowUnitLaws.antt`), and no row holds of one that can (`proofs/LiftRowLaws.antt`).
//! What refuses the edit of a lifted file is a row of the file (`proofs/GrownRowLaws.antt`).
//! Read first: `specs/LiftedFiles.antt`, `specs/Lifted.antt`.
#![tactic(auto)]
