//! Nodes in byte order of their paths, in a vector: looked up, put, taken out and moved.
//!
//! Read first: `specs/Logs.antt`, `specs/Places.antt`.
ghost use Rattle.std.specs.Prelude.{◌≡◌, ◌<◌, ◌≤◌, true, vec_len, vec_capacity, is_ok, MatchResult, IfOk, IfErr, OnSome, option_map};
ghost use Rattle.std.specs.String.{string_bytes};
ghost use Rattle.std.specs.FinMap as fin;
ghost use Rattle.file_tree.specs.Trees.{with_node, without, moved};
ghost use Rattle.file_tree.specs.Logs.{entries_of, tree_of, are_sorted};
ghost use Rattle.file_tree.specs.Places.{rank, stands, with_entry, without_entry, entry_at, are_rising};

use crate::node::Node;
use std::cmp::Ordering;

/// The number in the middle.
fn middle_of(first: usize, end: usize) -> usize
    requires { first < end }
    ensures least { first ≤ result }
    ensures most { result < end }
{
    first + (end - first) / 2
}

/// Where the path stands, or else where it would stand: found by halving.
#[tactic(auto, using(crate::proofs::SeekLaws::seek_laws))]
fn seek(places: &Vec<(String, Node)>, path: &str) -> Result<usize, usize>
    requires { are_rising (entries_of places.now.items) ≡ true }
    ensures rank { MatchResult result (λ i. i ≡ rank path.now (entries_of places.now.items)) (λ i. i ≡ rank path.now (entries_of places.now.items)) }
    ensures stands { is_ok result ≡ stands path.now (entries_of places.now.items) }
    ensures inside { IfOk result (λ i. i < vec_len places.now) }
    ensures within { IfErr result (λ i. i ≤ vec_len places.now) }
{
    let mut first = 0;
    let mut end = places.len();
    while first < end {
        let middle = middle_of(first, end);
        let here = places[middle].0.as_str();
        match path.cmp(&here) {
            Ordering::Greater => first = middle + 1,
            Ordering::Equal => return Ok(middle),
            Ordering::Less => end = middle,
        }
    }
    Err(first)
}

/// The places with the node in its place, in a vector with room for it.
#[tactic(auto, using(crate::proofs::PlaceLaws::insert_goes, crate::proofs::PlaceLaws::insert_stands))]
fn insert_in(places: &mut Vec<(String, Node)>, path: String, node: Node)
    requires room { vec_len places.old < vec_capacity places.old }
    requires order { are_rising (entries_of places.old.items) ≡ true }
    ensures { entries_of places.new.items ≡ with_entry (string_bytes path) node (entries_of places.old.items) }
{
    let at = match seek(places, path.as_str()) {
        Ok(i) => {
            let _ = places.remove(i);
            i
        }
        Err(i) => i,
    };
    match places.insert(at, (path, node)) {
        Ok(()) => {}
        Err(_) => unreachable!(),
    }
}

/// Takes the path out of the places.
#[tactic(auto, using(crate::proofs::PlaceLaws::place_laws))]
fn remove_from(places: &mut Vec<(String, Node)>, path: &str) -> Option<(String, Node)>
    requires { are_rising (entries_of places.old.items) ≡ true }
    ensures kept { entries_of places.new.items ≡ without_entry path.now (entries_of places.old.items) }
    ensures found { entry_at path.now (entries_of places.old.items) ≡ option_map (λ p. p.1) result }
    ensures room { vec_capacity places.new ≡ vec_capacity places.old }
    ensures shorter { OnSome result (vec_len places.new < vec_len places.old) }
{
    match seek(places, path) {
        Ok(i) => Some(places.remove(i)),
        Err(_) => None,
    }
}

/// The node at the path.
#[tactic(auto, using(crate::proofs::PlaceLaws::place_laws), unfolding(crate::specs::Logs::are_sorted))]
pub(crate) fn node_at<'a>(places: &'a Vec<(String, Node)>, path: &str) -> Option<&'a Node>
    requires { are_sorted places.now.items ≡ true }
    ensures { entry_at path.now (entries_of places.now.items) ≡ option_map (λ n. n.now) result }
{
    match seek(places, path) {
        Ok(i) => Some(&places[i].1),
        Err(_) => None,
    }
}

/// Puts the node at the path; there is room for it.
#[tactic(auto, using(crate::proofs::TreeLaws::tree_laws), unfolding(crate::specs::Logs::are_sorted))]
pub(crate) fn put_node(places: &mut Vec<(String, Node)>, path: String, node: Node)
    requires room { vec_len places.old < vec_capacity places.old }
    requires order { are_sorted places.old.items ≡ true }
    ensures tree { tree_of places.new.items ≡ with_node (string_bytes path) node (tree_of places.old.items) }
    ensures sorted { are_sorted places.new.items ≡ true }
{
    insert_in(places, path, node);
}

/// Takes the path away, and gives what was there.
#[tactic(auto, using(crate::proofs::TreeLaws::tree_laws), unfolding(crate::specs::Logs::are_sorted))]
pub(crate) fn take_node(places: &mut Vec<(String, Node)>, path: &str) -> Option<(String, Node)>
    requires { are_sorted places.old.items ≡ true }
    ensures tree { tree_of places.new.items ≡ without path.now (tree_of places.old.items) }
    ensures sorted { are_sorted places.new.items ≡ true }
    ensures found { fin.get (tree_of places.old.items) path.now ≡ option_map (λ p. p.1) result }
    ensures room { vec_capacity places.new ≡ vec_capacity places.old }
    ensures shorter { OnSome result (vec_len places.new < vec_len places.old) }
{
    remove_from(places, path)
}

/// Moves what is at the one path to the other.
#[tactic(auto, using(crate::proofs::TreeLaws::moved_absent), unfolding(crate::specs::Trees::moved))]
pub(crate) fn move_node(places: &mut Vec<(String, Node)>, from: &str, to: String)
    requires { are_sorted places.old.items ≡ true }
    ensures tree { tree_of places.new.items ≡ moved from.now (string_bytes to) (tree_of places.old.items) }
    ensures sorted { are_sorted places.new.items ≡ true }
{
    match take_node(places, from) {
        Some((_from, node)) => put_node(places, to, node),
        None => {}
    }
}
