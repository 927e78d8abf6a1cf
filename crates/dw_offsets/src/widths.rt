//! How many offsets have room in so many bytes (DWARF 5, 7.4).

ghost use Rattle.std.specs.Prelude.{◌≡◌, ◌%◌, ◌==◌};
ghost use Rattle.dw_base.specs.Forms.{width_size};
ghost use Rattle.dw_offsets.specs.SlotSearch.{IsSlotCount};

use dw_base::Width;

/// So many bytes are whole offsets.
pub(crate) fn are_whole(width: Width, size: u64) -> bool
    ensures whole { result ≡ (size % width_size width == 0) }
{
    match width {
        Width::W32 => size % 4 == 0,
        Width::W64 => size % 8 == 0,
    }
}

/// How many offsets have room in so many bytes.
#[tactic(auto, using(crate::proofs::SlotLaws::count_laws))]
pub(crate) fn slot_count(width: Width, size: u64) -> u64
    ensures count { IsSlotCount width size result }
{
    match width {
        Width::W32 => size / 4,
        Width::W64 => size / 8,
    }
}
