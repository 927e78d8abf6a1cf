//! The program headers of two files compared, and the bytes of the segments that are loaded (gABI ch. 5 "Program Header").

ghost use Rattle.std.specs.Prelude.{◌≡◌, ◌≢◌, ◌+◌, ◌≤◌, false, length, IsTrue};
ghost use Rattle.dbg_check.specs.Images.{AreSmall, file_holes};
ghost use Rattle.dbg_check.specs.Loads.{LoadAgrees, LoadsAgree, SegmentsLie, same_segment};

use crate::holes::{Holes, same_bytes};
use dw_base::Segment;
use dw_base::elf_numbers::PT_LOAD;

/// Whether two program headers have the same numbers.
fn same_segment(one: &Segment, other: &Segment) -> bool
    ensures value { result ≡ same_segment one.now other.now }
{
    one.kind == other.kind
        && one.flags == other.flags
        && one.offset == other.offset
        && one.vaddr == other.vaddr
        && one.paddr == other.paddr
        && one.filesz == other.filesz
        && one.memsz == other.memsz
        && one.align == other.align
}

/// Whether two lists have the same program headers.
#[tactic(auto, using(crate::proofs::SegmentLaws::list_laws))]
pub(crate) fn same_segments(old: &[Segment], new: &[Segment]) -> bool
    ensures same { IsTrue result → old.now ≡ new.now }
    ensures other { result ≡ false → old.now ≡ new.now → ⊥ }
{
    if old.len() != new.len() {
        return false;
    }
    let mut at = 0;
    'segments: while at < old.len() {
        if !same_segment(&old[at], &new[at]) {
            return false;
        }
        at += 1;
    }
    true
}

/// Whether a segment, where it is loaded, has the same bytes in two files, but for what is left out.
#[tactic(auto, using(crate::proofs::SegmentLaws::load_laws))]
fn same_load(old: &[u8], new: &[u8], holes: &Holes, others: &Holes, segment: &Segment) -> bool
    requires are { holes.now ≡ file_holes old.now }
    requires are_there { others.now ≡ file_holes new.now }
    requires small { AreSmall holes.now }
    requires others { AreSmall others.now }
    requires lies { segment.now.filesz ≢ 0 → segment.now.offset + segment.now.filesz ≤ length old.now }
    requires lies_there { segment.now.filesz ≢ 0 → segment.now.offset + segment.now.filesz ≤ length new.now }
    ensures same { IsTrue result → LoadAgrees old.now new.now segment.now }
    ensures other { result ≡ false → LoadAgrees old.now new.now segment.now → ⊥ }
{
    if segment.kind != PT_LOAD {
        return true;
    }
    if segment.filesz == 0 {
        return true;
    }
    let end = segment.offset + segment.filesz;
    same_bytes(old, new, holes, others, segment.offset, end)
}

/// Whether the segments that are loaded have the same bytes in two files, but for what is left out.
#[tactic(auto, using(crate::proofs::SegmentLaws::loads_laws))]
pub(crate) fn same_loads(
    old: &[u8],
    new: &[u8],
    holes: &Holes,
    others: &Holes,
    segments: &[Segment],
) -> bool
    requires are { holes.now ≡ file_holes old.now }
    requires are_there { others.now ≡ file_holes new.now }
    requires small { AreSmall holes.now }
    requires others { AreSmall others.now }
    requires lie { SegmentsLie old.now segments.now }
    requires lie_there { SegmentsLie new.now segments.now }
    ensures same { IsTrue result → LoadsAgree old.now new.now segments.now }
    ensures other { result ≡ false → LoadsAgree old.now new.now segments.now → ⊥ }
{
    'segments: for segment in segments {
        if !same_load(old, new, holes, others, segment) {
            return false;
        }
    }
    true
}
