//! Bytes of two files compared where neither leaves them out: what is loaded of a file leaves out its build-id, and three fields of its
//! header (gABI ch. 4 "ELF Header").

ghost use Rattle.std.specs.Prelude.{false, ◌≡◌, ◌⊎◌, ◌+◌, ◌^◌, ◌<◌, ◌≤◌, length, IsTrue};
ghost use Rattle.dw_base.specs.Texts.{same_text};
ghost use Rattle.dw_base.specs.WrittenLines.{part};
ghost use Rattle.dw_meaning.specs.Loaded.{lies_within};
ghost use Rattle.dbg_check.specs.Images.{AreSmall, HoleStands, HolesStand, SameIn, is_left_out};

/// So many bytes from a place that are left out.
#[derive(Clone, Copy, Debug, PartialEq, Eq)]
pub struct Hole {
    /// In bytes from the start of the file.
    pub at: u64,
    /// How many bytes there are.
    pub len: u64,
}

/// The bytes of a file that are left out.
#[derive(Clone, Copy, Debug, PartialEq, Eq)]
pub struct Holes {
    /// `e_shoff`.
    pub shoff: Hole,
    /// `e_shnum`.
    pub shnum: Hole,
    /// `e_shstrndx`.
    pub shstrndx: Hole,
    /// The build-id; none where it has no bytes.
    pub id: Hole,
}

/// Whether a place is in a hole.
fn is_in(hole: Hole, place: u64) -> bool
    requires small { hole.at + hole.len < 2 ^ 64 }
    ensures value { result ≡ lies_within hole.at hole.len place }
{
    hole.at <= place && place < hole.at + hole.len
}

/// Whether the byte at a place is left out.
fn is_left_out(holes: &Holes, place: u64) -> bool
    requires small { AreSmall holes.now }
    ensures value { result ≡ is_left_out holes.now place }
{
    is_in(holes.shoff, place)
        || is_in(holes.shnum, place)
        || is_in(holes.shstrndx, place)
        || is_in(holes.id, place)
}

/// Of two numbers the one that isn't above the other.
fn least(one: u64, other: u64) -> u64
    ensures one { result ≤ one }
    ensures other { result ≤ other }
    ensures is { (result ≡ one) ⊎ (result ≡ other) }
{
    if one < other {
        return one;
    }
    other
}

/// The first place above one, and at most an end, at which a hole begins or ends.
#[tactic(auto, using(crate::proofs::ImageLaws::hole_laws))]
fn past_hole(hole: Hole, place: u64, end: u64) -> u64
    requires small { hole.at + hole.len < 2 ^ 64 }
    requires below { place < end }
    ensures above { place < result }
    ensures within { result ≤ end }
    ensures stands { HoleStands hole place result }
{
    if place < hole.at {
        return least(end, hole.at);
    }
    if place < hole.at + hole.len {
        return least(end, hole.at + hole.len);
    }
    end
}

/// The first place above one, and at most an end, at which what is left out of a file begins or ends.
#[tactic(auto, using(crate::proofs::ImageLaws::edge_laws))]
fn next_edge(holes: &Holes, place: u64, end: u64) -> u64
    requires small { AreSmall holes.now }
    requires below { place < end }
    ensures above { place < result }
    ensures within { result ≤ end }
    ensures stands { HolesStand holes.now place result }
{
    let first = past_hole(holes.shoff, place, end);
    let second = past_hole(holes.shnum, place, first);
    let third = past_hole(holes.shstrndx, place, second);
    past_hole(holes.id, place, third)
}

/// The first place above one, and at most an end, at which what is left out of one of two files begins or ends.
#[tactic(auto, using(crate::proofs::ImageLaws::edge_laws))]
fn next_of_both(holes: &Holes, others: &Holes, place: u64, end: u64) -> u64
    requires small { AreSmall holes.now }
    requires others { AreSmall others.now }
    requires below { place < end }
    ensures above { place < result }
    ensures within { result ≤ end }
    ensures stands { HolesStand holes.now place result }
    ensures others { HolesStand others.now place result }
{
    let edge = next_edge(holes, place, end);
    next_edge(others, place, edge)
}

/// Whether the bytes of two files are the same from a place up to another.
fn same_part(old: &[u8], new: &[u8], from: u64, end: u64) -> bool
    requires order { from ≤ end }
    requires inside { end ≤ length old.now }
    requires inside_new { end ≤ length new.now }
    ensures value { result ≡ same_text (part old.now from end) (part new.now from end) }
{
    let first = &old[from as usize..end as usize];
    let second = &new[from as usize..end as usize];
    first == second
}

/// The same of a run in which nothing that is left out begins or ends, for those that are not left out.
#[tactic(auto, using(crate::proofs::ImageLaws::run_laws))]
fn same_run(old: &[u8], new: &[u8], holes: &Holes, others: &Holes, from: u64, end: u64) -> bool
    requires small { AreSmall holes.now }
    requires others { AreSmall others.now }
    requires order { from < end }
    requires inside { end ≤ length old.now }
    requires inside_new { end ≤ length new.now }
    requires stands { HolesStand holes.now from end }
    requires stands_there { HolesStand others.now from end }
    ensures same { IsTrue result → SameIn old.now new.now holes.now others.now from end }
    ensures other { result ≡ false → SameIn old.now new.now holes.now others.now from end → ⊥ }
{
    let left = is_left_out(holes, from);
    let gone = is_left_out(others, from);
    if left && gone {
        return true;
    }
    if left || gone {
        return false;
    }
    same_part(old, new, from, end)
}

/// Whether the bytes of two files are the same from a place up to another, where those that are left out of one are left out of the other.
#[tactic(auto, using(crate::proofs::ImageLaws::image_laws))]
pub fn same_bytes(
    old: &[u8],
    new: &[u8],
    holes: &Holes,
    others: &Holes,
    from: u64,
    end: u64,
) -> bool
    requires small { AreSmall holes.now }
    requires others { AreSmall others.now }
    requires order { from ≤ end }
    requires inside { end ≤ length old.now }
    requires inside_new { end ≤ length new.now }
    ensures same { IsTrue result → SameIn old.now new.now holes.now others.now from end }
    ensures other { result ≡ false → SameIn old.now new.now holes.now others.now from end → ⊥ }
{
    let mut at = from;
    'runs: while at < end {
        let edge = next_of_both(holes, others, at, end);
        if !same_run(old, new, holes, others, at, edge) {
            return false;
        }
        at = edge;
    }
    true
}
