//! Numbers of texts of string tables: two have the same exactly where they are the same text (gABI ch. 4 "String Table").
//!
//! A text is numbered by its first byte and the number of the rest, so the texts at all places of a table are numbered in one pass from its
//! end, in a time that grows with the table, however far texts overlap.
//! Read first: `specs/TextNumbers.antt`.

ghost use Rattle.std.specs.Prelude.{◌≡◌, ◌+◌, ◌<◌, drop, get_or, length, nat_eq, replicate, IfOk, OnOk, None, Some};
ghost use Rattle.std.specs.HashMap.{get};
ghost use Rattle.dw_base.specs.Elf.{name_table, nth_section, section_count};
ghost use Rattle.dw_base.specs.Texts.{text};
ghost use Rattle.dw_view.specs.TextNumbers.{AreNamesNumbered, AreNumbered, HasNumber, KeepsNumbers, NamesNumbered, PlacesNumbered, front_key};

use dw_base::NoMemory;
use elf_file::ElfFile;
use std::alloc::Global;
use std::collections::HashMap;

/// The numbers of texts.
#[derive(Drop)]
struct TextNumbers {
    /// By the number of a text and a byte in front of it, the number of the two.
    kept: HashMap<u64, u32>,
    /// This number and all above it are free.
    free: u32,
}

/// The numbers of the names of the sections of a stripped file and of its debug file.
#[derive(Drop)]
pub struct NameNumbers {
    pub stripped: Vec<u32>,
    pub debug: Vec<u32>,
}

/// By what the number of a text is kept that has a byte in front of one of a number.
fn front_key(rest: u32, byte: u8) -> u64
    ensures key { result ≡ front_key rest byte }
{
    u64::from(rest) * 256 + u64::from(byte)
}

impl TextNumbers {
    /// The empty text alone has a number, 0.
    #[tactic(auto, using(crate::proofs::TextNumberLaws::none_laws))]
    fn new(alloc: Global) -> TextNumbers
        ensures numbered { AreNumbered (λ k. get nat_eq result.kept k) result.free }
    {
        TextNumbers {
            kept: HashMap::new(alloc),
            free: 1,
        }
    }

    /// Keeps the first free number.
    #[tactic(auto, using(crate::proofs::TextNumberLaws::keep_laws))]
    fn keep(&mut self, key: u64) -> Result<u32, NoMemory>
        requires numbered { AreNumbered (λ k. get nat_eq self.old.kept k) self.old.free }
        requires absent { get nat_eq self.old.kept key ≡ None }
        ensures numbered { OnOk result (AreNumbered (λ k. get nat_eq self.new.kept k) self.new.free) }
        ensures keeps { OnOk result (KeepsNumbers (λ k. get nat_eq self.old.kept k) (λ k. get nat_eq self.new.kept k)) }
        ensures number { IfOk result (λ n. get nat_eq self.new.kept key ≡ Some n) }
    {
        let number = self.free;
        let Some(free) = number.checked_add(1) else {
            return Err(NoMemory);
        };
        self.kept.insert(key, number)?;
        self.free = free;
        Ok(number)
    }

    /// The number of a text that has a byte in front of one of a number.
    #[tactic(auto, using(crate::proofs::TextNumberLaws::front_laws))]
    fn front(&mut self, rest: u32, byte: u8) -> Result<u32, NoMemory>
        requires numbered { AreNumbered (λ k. get nat_eq self.old.kept k) self.old.free }
        ensures numbered { OnOk result (AreNumbered (λ k. get nat_eq self.new.kept k) self.new.free) }
        ensures keeps { OnOk result (KeepsNumbers (λ k. get nat_eq self.old.kept k) (λ k. get nat_eq self.new.kept k)) }
        ensures number { IfOk result (λ n. get nat_eq self.new.kept (front_key rest byte) ≡ Some n) }
    {
        let key = front_key(rest, byte);
        if let Some(number) = self.kept.get(&key) {
            return Ok(*number);
        }
        self.keep(key)
    }
}

/// The number of the text at a place of a table, where the one behind it is that of the place behind it.
#[tactic(auto, using(crate::proofs::TextNumberLaws::place_laws))]
fn number_at(
    numbers: &mut TextNumbers,
    table: &[u8],
    place: usize,
    rest: u32,
) -> Result<u32, NoMemory>
    requires there { place < length table.now }
    requires numbered { AreNumbered (λ k. get nat_eq numbers.old.kept k) numbers.old.free }
    requires rest { HasNumber (λ k. get nat_eq numbers.old.kept k) (text (drop (place + 1) table.now)) rest }
    ensures numbered { OnOk result (AreNumbered (λ k. get nat_eq numbers.new.kept k) numbers.new.free) }
    ensures keeps { OnOk result (KeepsNumbers (λ k. get nat_eq numbers.old.kept k) (λ k. get nat_eq numbers.new.kept k)) }
    ensures number { IfOk result (HasNumber (λ k. get nat_eq numbers.new.kept k) (text (drop place table.now))) }
{
    let byte = table[place];
    if byte == 0 {
        return Ok(0);
    }
    numbers.front(rest, byte)
}

/// The number of the empty text, so many times.
fn noughts(alloc: Global, count: usize) -> Result<Vec<u32>, NoMemory>
    ensures noughts { IfOk result (λ noughts. noughts.items ≡ replicate count 0) }
{
    let mut noughts = Vec::new(alloc);
    noughts.resize(count, 0)?;
    Ok(noughts)
}

/// The numbers of the texts at all places of a table, from the last to the first.
#[tactic(auto, using(crate::proofs::TextNumberLaws::places_laws))]
fn number_places(
    alloc: Global,
    numbers: &mut TextNumbers,
    table: &[u8],
) -> Result<Vec<u32>, NoMemory>
    requires numbered { AreNumbered (λ k. get nat_eq numbers.old.kept k) numbers.old.free }
    ensures numbered { OnOk result (AreNumbered (λ k. get nat_eq numbers.new.kept k) numbers.new.free) }
    ensures keeps { OnOk result (KeepsNumbers (λ k. get nat_eq numbers.old.kept k) (λ k. get nat_eq numbers.new.kept k)) }
    ensures places { IfOk result (λ places. PlacesNumbered (λ k. get nat_eq numbers.new.kept k) table.now 0 places.items) }
{
    let size = table.len();
    let mut places = noughts(alloc, size + 1)?;
    for passed in 0..size {
        let place = size - 1 - passed;
        let number = number_at(numbers, table, place, places[place + 1])?;
        places[place] = number;
    }
    Ok(places)
}

/// The number at a place, 0 behind the last.
fn number_of(places: &[u32], place: u64) -> u32
    ensures number { result ≡ get_or places.now place 0 }
{
    if place < places.len() as u64 {
        return places[place as usize];
    }
    0
}

/// The table of the names of the sections.
#[tactic(auto, using(crate::proofs::TextNumberLaws::table_laws))]
fn name_table<'a>(elf: &'a ElfFile) -> &'a [u8]
    ensures table { result.now ≡ name_table elf.now.bytes.now }
{
    if elf.section_count() == 0 {
        return &elf.bytes[..0];
    }
    elf.contents(elf.names)
}

/// The numbers of the names of the sections of a file.
#[tactic(auto, using(crate::proofs::TextNumberLaws::name_laws))]
fn number_names(
    alloc: Global,
    numbers: &mut TextNumbers,
    elf: &ElfFile,
) -> Result<Vec<u32>, NoMemory>
    requires numbered { AreNumbered (λ k. get nat_eq numbers.old.kept k) numbers.old.free }
    ensures numbered { OnOk result (AreNumbered (λ k. get nat_eq numbers.new.kept k) numbers.new.free) }
    ensures keeps { OnOk result (KeepsNumbers (λ k. get nat_eq numbers.old.kept k) (λ k. get nat_eq numbers.new.kept k)) }
    ensures names { IfOk result (λ names. NamesNumbered (λ k. get nat_eq numbers.new.kept k) elf.now.bytes.now (section_count elf.now.bytes.now) names.items) }
{
    let places = number_places(alloc, numbers, name_table(elf))?;
    let mut names = Vec::with_capacity(alloc, elf.sections.len())?;
    for section in 0..elf.section_count() {
        let head = elf.section(section);
        names.push(number_of(places.as_slice(), u64::from(head.name)))?;
    }
    Ok(names)
}

/// The same, of a stripped file and its debug file.
#[tactic(auto, using(crate::proofs::TextNumberLaws::pair_laws))]
pub fn name_numbers(stripped: &ElfFile, debug: &ElfFile) -> Result<NameNumbers, NoMemory>
    ensures names { IfOk result (λ names. AreNamesNumbered stripped.now.bytes.now debug.now.bytes.now names.stripped.items names.debug.items) }
{
    let alloc = *debug.sections.allocator();
    let mut numbers = TextNumbers::new(alloc);
    let own = number_names(alloc, &mut numbers, stripped)?;
    let others = number_names(alloc, &mut numbers, debug)?;
    Ok(NameNumbers {
        stripped: own,
        debug: others,
    })
}
