//! The number of what starts at a place, among where all of its kind start.

ghost use Rattle.std.specs.Prelude.{◌≡◌};
ghost use Rattle.dw_base.specs.DebugData.{start_number};
ghost use Rattle.dw_starts.specs.LineStarts.{Rises};
ghost use Rattle.dw_starts.specs.UnitPlaces.{unit_number};

use dw_starts::{place_key, start_number};

/// No section has as many bytes.
const PLACE_LIMIT: u64 = 0x1_0000_0000;

/// The number of the start at a place.
pub fn started(starts: &[u64], start: u64) -> Option<u64>
    requires rises { Rises starts.now }
    ensures { result ≡ start_number 0 starts.now start }
{
    match start_number(starts, start) {
        Some(number) => Some(number as u64),
        None => None,
    }
}

/// The number of the unit that starts at a place of a section.
pub fn unit_number(keys: &[u64], section: u32, place: u64) -> Option<u64>
    requires rises { Rises keys.now }
    ensures { result ≡ unit_number keys.now section place }
{
    if place < PLACE_LIMIT {
        return started(keys, place_key(section, place));
    }
    None
}
