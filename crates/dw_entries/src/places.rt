//! Where the fields of a unit's header stand (DWARF 5, 7.5.1; for versions 2 to 4 the standards' own).

ghost use Rattle.std.specs.Prelude.{◌≡◌, ◌≤◌, ◌<◌, ◌+◌};
ghost use Rattle.dw_base.specs.Forms.{width_size};
ghost use Rattle.dw_base.specs.UnitHeaders.{further_size, header_places};

use dw_base::Width;
use dw_base::dwarf_numbers::{DW_UT_skeleton, DW_UT_split_compile, DW_UT_split_type, DW_UT_type};

/// How many bytes follow the fields that each header has.
pub(crate) fn further_size(width: Width, kind: u64) -> u64
    ensures size { result ≡ further_size width kind }
    ensures small { result ≤ 16 }
{
    if kind == DW_UT_type || kind == DW_UT_split_type {
        return 8 + u64::from(width.offset_size());
    }
    if kind == DW_UT_skeleton || kind == DW_UT_split_compile {
        return 8;
    }
    0
}

/// Where the fields of a header stand, from its start.
#[derive(Clone, Copy)]
pub(crate) struct Places {
    /// The size of addresses.
    pub address: u64,
    /// The offset of the abbreviations.
    pub abbrevs: u64,
    /// What follows the fields that each header has.
    pub behind: u64,
}

/// Where the fields stand whose version stands at a place.
pub(crate) fn places_of(width: Width, version: u64, at: u64) -> Places
    requires small { at ≤ 12 }
    ensures address { result.address ≡ (header_places width version at).address }
    ensures abbrevs { result.abbrevs ≡ (header_places width version at).abbrevs }
    ensures behind { result.behind ≡ (header_places width version at).behind }
    ensures within { result.address + 1 ≤ result.behind }
    ensures offset { result.abbrevs + width_size width ≤ result.behind }
    ensures further { at < result.behind }
    ensures near { result.behind ≤ 24 }
{
    let size = u64::from(width.offset_size());
    if version == 5 {
        return Places {
            address: at + 3,
            abbrevs: at + 4,
            behind: at + 4 + size,
        };
    }
    Places {
        address: at + 2 + size,
        abbrevs: at + 2,
        behind: at + 3 + size,
    }
}
