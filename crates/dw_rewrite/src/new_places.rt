//! The new places of what fields hold offsets of, by the section of debug data that it is in: of paths, and of line tables.
//!
//! Read first: `specs/NewPlaces.antt`.

ghost use Rattle.std.specs.Prelude.{◌≡◌};
ghost use Rattle.dw_rewrite.specs.NewPlaces.{AllPlaces, places_known};

use crate::starts::NewStarts;
use dw_base::DebugSection;
use dw_lines::NewTexts;
use std::marker::Model;

/// The new places of texts and of line tables, by their old ones.
#[derive(Drop)]
pub(crate) struct NewPlaces<'a> {
    /// Those of texts.
    pub texts: NewTexts,
    /// Those of line tables.
    pub starts: NewStarts<'a>,
}

impl<'a> Model for NewPlaces<'a> {
    ghost Value = { AllPlaces };

    ghost view = { λ n. record { texts = n.texts; starts = n.starts } };
}

impl<'a> NewPlaces<'a> {
    /// Those of texts.
    pub(crate) fn texts(&self) -> &NewTexts
        ensures texts { result.now ≡ self.now.texts }
    {
        &self.texts
    }

    /// The new place of what is at an old place of a section, a path or not. `None` where none is known.
    #[inline(always)]
    #[tactic(auto, using(crate::proofs::NewPlaceLaws::get_rules))]
    pub(crate) fn get(&self, section: DebugSection, path: bool, old: u64) -> Option<u64>
        ensures value { result ≡ places_known self.now section path old }
    {
        match section {
            DebugSection::Line => self.starts.get(old),
            _ => self.texts.get(section, path, old),
        }
    }
}
