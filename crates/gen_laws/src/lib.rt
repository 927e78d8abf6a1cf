//! Generated files as an edit meets them: definitions and laws. No call. This project's profile.
//!
//! Its laws say: a generated file is taken by an edit with any prefix map, and how many units, entries and rows it means.
//! They say nothing of what the edit answers.
//! Read first: `specs/Counts.antt`, `proofs/AcceptedLaws.antt`, `proofs/CountedLaws.antt`.
#![tactic(auto)]
