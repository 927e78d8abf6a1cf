//! A string table that is built anew from the texts that fields name (this project's profile): each once, in the order
//! in which it was first added.
//!
//! Texts are lent, or owned where no one else holds them. None is copied before the table is written, so that how long
//! it will be is known before memory for it is taken.
//!
//! Read first: `specs/LentPool.antt`.

ghost use Rattle.std.specs.Prelude.{◌≡◌, ◌==◌, ◌+◌, ◌<◌, ◌≤◌, ◌^◌, [], Some, if◌then◌else◌, IfOk, OnOk, OnErr, length, map};
ghost use Rattle.std.specs.Cow.{cow_slice_items};
ghost use Rattle.dw_base.specs.StringTables.{TextTable, table_bytes, text_place, with_added};
ghost use Rattle.dw_base.specs.Texts.{laid_texts};
ghost use Rattle.dw_strings.specs.LentPool.{IsLentPool, IsNoted, lent_table};

use dw_base::NoMemory;
use indexmap::IndexMap;
use std::alloc::Global;
use std::borrow::CowSlice;
use std::marker::Model;

/// A string table that is built anew.
#[derive(Drop)]
pub struct LentPool<'a> {
    /// Where each text begins.
    places: IndexMap<CowSlice<'a, u8, Global>, u64>,
    /// Where the next would begin.
    len: u64,
}

impl<'a> Model for LentPool<'a> {
    ghost Value = { TextTable };

    ghost view = { λ p. lent_table p.places.entries };

    ghost invariant = { λ p. IsLentPool p.len p.places.entries };
}

impl<'a> LentPool<'a> {
    /// A table of no texts.
    pub fn new(alloc: Global) -> LentPool<'a>
        ensures value { result ≡ record { kept = []; texts = [] } }
    {
        LentPool {
            places: IndexMap::new(alloc),
            len: 0,
        }
    }

    /// How long the table is: each text with its NUL.
    pub fn len(&self) -> u64
        ensures value { result ≡ length (table_bytes self.now) }
    {
        self.len
    }

    /// Where a text that was added begins. `None` exactly where it wasn't.
    pub fn place(&self, text: &[u8]) -> Option<u64>
        ensures value { result ≡ text_place self.now text.now }
    {
        self.places.get(text).copied()
    }

    /// The place of a text, which stands behind the others with its NUL if it wasn't added before. After `NoMemory`
    /// the table is as it was.
    pub fn add_lent(&mut self, text: &'a [u8]) -> Result<u64, NoMemory>
        requires small { length (table_bytes self.old) < 2 ^ 63 }
        ensures table { OnOk result (self.new ≡ with_added self.old text.now) }
        ensures place { IfOk result (λ at. text_place self.new text.now ≡ Some at) }
        ensures err { OnErr result (self.new ≡ self.old) }
    {
        add(&mut self.places, &mut self.len, CowSlice::Borrowed(text))
    }

    /// The same of a text that is given away.
    pub fn add_owned(&mut self, text: Vec<u8>) -> Result<u64, NoMemory>
        requires small { length (table_bytes self.old) < 2 ^ 63 }
        ensures table { OnOk result (self.new ≡ with_added self.old text.items) }
        ensures place { IfOk result (λ at. text_place self.new text.items ≡ Some at) }
        ensures err { OnErr result (self.new ≡ self.old) }
    {
        add(&mut self.places, &mut self.len, CowSlice::Owned(text))
    }

    /// The table's bytes: each text with its NUL.
    pub fn into_bytes(self, alloc: Global) -> Result<Vec<u8>, NoMemory>
        ensures value { IfOk result (λ bytes. bytes.items ≡ table_bytes self.entry) }
    {
        let LentPool { places, len } = self;
        let texts = places.keys();
        laid_texts(alloc, len, texts.as_slice())
    }
}

/// The place of a text, which goes behind the others if it isn't there.
fn add<'a>(
    places: &mut IndexMap<CowSlice<'a, u8, Global>, u64>,
    len: &mut u64,
    text: CowSlice<'a, u8, Global>,
) -> Result<u64, NoMemory>
    requires pool { IsLentPool len.old places.old.entries }
    requires small { len.old < 2 ^ 63 }
    ensures pool { IsLentPool len.new places.new.entries }
    ensures table { OnOk result (lent_table places.new.entries ≡ with_added (lent_table places.old.entries) (cow_slice_items text.entry)) }
    ensures place { IfOk result (λ at. text_place (lent_table places.new.entries) (cow_slice_items text.entry) ≡ Some at) }
    ensures err { OnErr result (lent_table places.new.entries ≡ lent_table places.old.entries) }
{
    let size = text.as_slice().len() as u64 + 1;
    let place = noted(places, text, *len)?;
    *len = len_after(*len, place, size);
    Ok(place)
}

/// The place of a text; this one where it isn't there, which is then noted.
fn noted<'a>(
    places: &mut IndexMap<CowSlice<'a, u8, Global>, u64>,
    text: CowSlice<'a, u8, Global>,
    new: u64,
) -> Result<u64, NoMemory>
    ensures entry { IfOk result (λ at. IsNoted places.old.entries places.new.entries text.entry new at) }
    ensures err { OnErr result (places.new.entries ≡ places.old.entries) }
{
    let place = places.entry(text)?.or_insert(new);
    Ok(*place)
}

/// How long the table is with a text of a place: longer by its size where it was put at the end.
fn len_after(len: u64, place: u64, size: u64) -> u64
    requires small { len < 2 ^ 63 }
    requires fits { size ≤ 2 ^ 63 }
    ensures value { result ≡ (if place == len then len + size else len) }
{
    if place == len {
        return len + size;
    }
    len
}

/// Texts one after another, each with its NUL, which are so long together.
fn laid_texts(
    alloc: Global,
    len: u64,
    texts: &[CowSlice<'_, u8, Global>],
) -> Result<Vec<u8>, NoMemory>
    ensures value { IfOk result (λ bytes. bytes.items ≡ laid_texts (map cow_slice_items texts.now)) }
{
    let mut bytes = Vec::with_capacity(alloc, len as usize)?;
    for text in texts {
        bytes.extend_from_slice(text.as_slice())?;
        bytes.push(0)?;
    }
    Ok(bytes)
}
