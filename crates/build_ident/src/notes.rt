//! Notes (gABI ch. 5 "Note Section"), and among them that of the build-id: name `GNU`, type 3.

ghost use Rattle.std.specs.Prelude.{◌≡◌, ◌≤◌, ◌<◌, ◌+◌, ◌^◌, length, take, IfSome, MatchOption};
ghost use Rattle.dw_base.specs.Notes.{id_in, if_id, is_id_note, descriptor_at, aligned};

use dw_base::elf_numbers::NT_GNU_BUILD_ID;
use dw_base::{Order, number_in};

/// The size of the three numbers in front of a note.
const NHDR_SIZE: u64 = 12;
/// The name of notes of the GNU tools, with its NUL.
const GNU: &[u8] = b"GNU\0";

/// A descriptor in a section of notes.
#[derive(Clone, Copy)]
pub(crate) struct Field {
    /// In bytes from the section's start.
    pub place: u64,
    /// In bytes.
    pub size: u64,
}

/// The build-id in a section of notes: the descriptor of the first note of its kind, where that lies in
/// the section and has the size of an id.
#[tactic(auto, using(crate::proofs::NoteLaws::walk_rules), unfolding(dw_base::specs::Notes::id_in))]
pub(crate) fn id_in(order: Order, notes: &[u8]) -> Option<Field>
    ensures value { MatchOption result (id_in order notes.now ≡ None) (λ d. id_in order notes.now ≡ Some (record { place = d.place; size = d.size })) }
    ensures inside { IfSome result (λ d. d.place + d.size ≤ length notes.now) }
    ensures some { IfSome result (λ d. 2 ≤ d.size) }
    ensures wide { IfSome result (λ d. d.size ≤ 20) }
{
    let len = notes.len() as u64;
    let mut at = 0;
    'notes: while at + NHDR_SIZE <= len {
        let field = descriptor_at(order, notes, at);
        if is_id_note(order, notes, at) {
            return if_id(notes, field);
        }
        at = field.place + aligned(field.size);
    }
    None
}

/// Whether the note at a place has the name of the GNU tools and the type of a build-id.
#[tactic(auto, using(crate::proofs::NoteLaws::name_rules), unfolding(dw_base::specs::Notes::is_id_note))]
fn is_id_note(order: Order, notes: &[u8], at: u64) -> bool
    requires inside { at + 12 ≤ length notes.now }
    ensures value { result ≡ is_id_note order notes.now at }
{
    number_in(order, notes, at, 4) == 4
        && number_in(order, notes, at + 8, 4) == u64::from(NT_GNU_BUILD_ID)
        && front(&notes[at as usize + 12..]) == GNU
}

/// The first four bytes, all of them where there are fewer.
fn front(bytes: &[u8]) -> &[u8]
    ensures value { result.now ≡ take 4 bytes.now }
{
    &bytes[..bytes.len().min(4)]
}

/// The descriptor of the note at a place.
#[tactic(auto, unfolding(dw_base::specs::Notes::descriptor_at))]
fn descriptor_at(order: Order, notes: &[u8], at: u64) -> Field
    requires inside { at + 12 ≤ length notes.now }
    ensures place { result.place ≡ (descriptor_at order notes.now at).place }
    ensures size { result.size ≡ (descriptor_at order notes.now at).size }
    ensures behind { at + 12 ≤ result.place }
    ensures near { result.place + result.size < at + 12 + 2 ^ 34 }
    ensures short { result.size < 2 ^ 32 }
{
    let name_size = number_in(order, notes, at, 4);
    let size = number_in(order, notes, at + 4, 4);
    let place = at + NHDR_SIZE + aligned(name_size);
    Field { place, size }
}

/// A size with the padding to the next multiple of 4.
#[tactic(auto, unfolding(dw_base::specs::Layout::padding))]
fn aligned(size: u64) -> u64
    requires small { size < 2 ^ 32 }
    ensures value { result ≡ aligned size }
    ensures near { result < size + 4 }
    ensures least { size ≤ result }
{
    let over = size % 4;
    if over == 0 { size } else { size + (4 - over) }
}

/// The descriptor, where it lies in the section and has the size of a build-id.
fn if_id(notes: &[u8], field: Field) -> Option<Field>
    requires near { field.place + field.size < 2 ^ 64 }
    ensures value { MatchOption result (if_id notes.now (record { place = field.place; size = field.size }) ≡ None) (λ d. if_id notes.now (record { place = field.place; size = field.size }) ≡ Some (record { place = d.place; size = d.size })) }
    ensures inside { IfSome result (λ d. d.place + d.size ≤ length notes.now) }
    ensures some { IfSome result (λ d. 2 ≤ d.size) }
    ensures wide { IfSome result (λ d. d.size ≤ 20) }
{
    if field.place + field.size > notes.len() as u64 {
        return None;
    }
    if field.size < 2 || field.size > 20 {
        return None;
    }
    Some(field)
}
