//! The new places of texts in the tables of texts, by their old places: of those that are named as paths, and of others
//! (DWARF 5, 7.5.5, class string, and 6.2.4).
//!
//! Read first: `specs/NewTexts.antt`.

ghost use Rattle.std.specs.Prelude.{Bool, ◌≡◌, ℕ, None, OnOk, nat_eq};
ghost use Rattle.std.specs.HashMap.{get};
ghost use Rattle.dw_base.specs.declared.debug_sections.DebugSection.TheVariants.{LineStr, Str};
ghost use Rattle.dw_lines.specs.NewTexts.{AddsPlace, KeepsPlace, KnownPlaces, KnownTexts, known_by, texts_known};

use dw_base::DebugSection;
use std::alloc::{AllocError, Global};
use std::collections::HashMap;
use std::marker::Model;

/// The new places of the texts in a table of texts, by their old places.
#[derive(Drop)]
pub struct TextPlaces {
    /// Those of paths.
    paths: HashMap<u64, u64>,
    /// Those of other texts.
    texts: HashMap<u64, u64>,
}

impl Model for TextPlaces {
    ghost Value = { KnownPlaces };

    ghost view = { λ p. record { paths = p.paths.entries; texts = p.texts.entries } };
}

impl TextPlaces {
    /// None.
    pub fn new(alloc: Global) -> TextPlaces
        ensures none { (path : Bool) (old : ℕ) → known_by result path old ≡ None }
    {
        TextPlaces {
            paths: HashMap::new(alloc),
            texts: HashMap::new(alloc),
        }
    }

    /// The new place of the text at an old place, named as a path or not. `None` where none is known.
    #[tactic(auto, using(crate::proofs::NewTextLaws::get_laws))]
    pub fn get(&self, path: bool, old: u64) -> Option<u64>
        ensures { result ≡ known_by self.now path old }
    {
        if path {
            self.paths.get(&old).copied()
        } else {
            self.texts.get(&old).copied()
        }
    }

    /// Keeps the new place of the text at an old place, named as a path or not.
    #[tactic(auto, using(crate::proofs::NewTextLaws::add_laws))]
    pub fn add(&mut self, path: bool, old: u64, new: u64) -> Result<(), AllocError>
        ensures added { OnOk result (AddsPlace (known_by self.old) (known_by self.new) path old new) }
    {
        if path {
            keep_place(&mut self.paths, old, new)?;
        } else {
            keep_place(&mut self.texts, old, new)?;
        }
        Ok(())
    }
}

/// Keeps the new place of an old one.
fn keep_place(places: &mut HashMap<u64, u64>, old: u64, new: u64) -> Result<(), AllocError>
    ensures kept { OnOk result (KeepsPlace (λ o. get nat_eq places.old o) (λ o. get nat_eq places.new o) old new) }
{
    places.insert(old, new)?;
    Ok(())
}

/// The new places of texts in the tables of texts, by their old places.
#[derive(Drop)]
pub struct NewTexts {
    /// Those in `.debug_str`.
    str: TextPlaces,
    /// Those in `.debug_line_str`.
    line_str: TextPlaces,
}

impl Model for NewTexts {
    ghost Value = { KnownTexts };

    ghost view = { λ n. record { str = n.str; line_str = n.line_str } };
}

impl NewTexts {
    /// Those of these places.
    pub fn new(str: TextPlaces, line_str: TextPlaces) -> NewTexts
        ensures str { texts_known result Str ≡ known_by str }
        ensures line_str { texts_known result LineStr ≡ known_by line_str }
    {
        NewTexts { str, line_str }
    }

    /// The new place of the text at an old place of a section, named as a path or not. `None` where none is known.
    pub fn get(&self, section: DebugSection, path: bool, old: u64) -> Option<u64>
        ensures { result ≡ texts_known self.now section path old }
    {
        match section {
            DebugSection::Str => self.str.get(path, old),
            DebugSection::LineStr => self.line_str.get(path, old),
            _ => None,
        }
    }
}
