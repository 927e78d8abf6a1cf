//! What isn't taken has a row that says why: decisions row by row. Laws alone, no call.
//!
//! Its laws say: a file can be edited with a map, or a condition that refuses it holds; and so of a file that is to be split.
//! They say nothing of what a call answers.
//! Read first: `specs/Decided.antt`, `specs/CanSplit.antt`, `proofs/EditDecisions.antt`.
#![tactic(auto)]
