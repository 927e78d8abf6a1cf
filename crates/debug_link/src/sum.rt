//! CRC-32 (ISO 3309; ITU-T V.42, 8.1.1.6.2), sixteen bytes at a time by a table.
//!
//! `crc32` is the sum of the bitwise division, and takes no memory; `crc32_of` is that of bytes in pieces.

ghost use Rattle.std.specs.Prelude.{◌≡◌, flat_map, length};
ghost use Rattle.debug_link.specs.Sums.{with_bits, with_bytes, crc32};
ghost use Rattle.debug_link.specs.Tables.{little, times, IsTable};

use crate::table::{ENTRIES, make_table};

/// The CRC-32 of some bytes, as `zlib`, `gzip` and `.gnu_debuglink` have it.
#[tactic(auto, unfolding(crate::specs::Sums::crc32))]
pub fn crc32(bytes: &[u8]) -> u32
    ensures value { result ≡ crc32 bytes.now }
{
    let table = make_table();
    let rest = divide_words(&table, u32::MAX, bytes);
    !rest
}

/// The CRC-32 of the bytes of some pieces, one behind another.
#[tactic(auto, unfolding(crate::specs::Sums::crc32))]
pub fn crc32_of(pieces: &[&[u8]]) -> u32
    ensures value { result ≡ crc32 (flat_map (λ piece. piece.now) pieces.now) }
{
    let table = make_table();
    !divide_pieces(&table, u32::MAX, pieces)
}

/// The remainder with the bytes of some pieces more.
fn divide_pieces(table: &[u32; ENTRIES], start: u32, pieces: &[&[u8]]) -> u32
    requires table { IsTable 4096 table.now }
    ensures value { result ≡ with_bytes (flat_map (λ piece. piece.now) pieces.now) start }
{
    let mut rest = start;
    'pieces: for piece in pieces {
        rest = divide_words(table, rest, piece);
    }
    rest
}

/// The remainder with the bytes more, sixteen at a time.
#[tactic(auto, using(crate::proofs::SumLaws::word_rules))]
fn divide_words(table: &[u32; ENTRIES], start: u32, bytes: &[u8]) -> u32
    requires table { IsTable 4096 table.now }
    ensures value { result ≡ with_bytes bytes.now start }
{
    let mut rest = start;
    let mut bytes = bytes;
    'words: while bytes.len() >= 16 {
        let (words, more) = bytes.split_at(16);
        rest = divide_two(table, rest, words);
        bytes = more;
    }
    divide_bytes(table, rest, bytes)
}

/// The remainder with the bytes more, one at a time.
fn divide_bytes(table: &[u32; ENTRIES], start: u32, bytes: &[u8]) -> u32
    requires table { IsTable 4096 table.now }
    ensures value { result ≡ with_bytes bytes.now start }
{
    let mut rest = start;
    'bytes: for byte in bytes {
        rest = divide_byte(table, rest, *byte);
    }
    rest
}

/// The remainder with a byte more.
#[tactic(auto, using(crate::proofs::SumLaws::byte_rules))]
fn divide_byte(table: &[u32; ENTRIES], rest: u32, byte: u8) -> u32
    requires table { IsTable 4096 table.now }
    ensures value { result ≡ with_bits 8 byte rest }
{
    let added = rest ^ u32::from(byte);
    table[(added % 256) as usize] ^ (added / 256)
}

/// The remainder with two words more, of eight bytes each.
#[tactic(auto, using(crate::proofs::SumLaws::two_rules))]
fn divide_two(table: &[u32; ENTRIES], rest: u32, words: &[u8]) -> u32
    requires table { IsTable 4096 table.now }
    requires two { length words.now ≡ 16 }
    ensures value { result ≡ with_bytes words.now rest }
{
    let (first, second) = words.split_at(8);
    times_x128(table, u64::from(rest) ^ word_in(first)) ^ times_x64(table, word_in(second))
}

/// The number that eight bytes spell, the lowest first.
#[tactic(auto, using(crate::proofs::SumLaws::eight_rules))]
fn word_in(bytes: &[u8]) -> u64
    requires eight { length bytes.now ≡ 8 }
    ensures value { result ≡ little bytes.now }
{
    u64::from_le_bytes([
        bytes[0], bytes[1], bytes[2], bytes[3], bytes[4], bytes[5], bytes[6], bytes[7],
    ])
}

/// A remainder, to which eight bytes were added, times x to the power of 128.
#[tactic(auto, using(crate::proofs::SumLaws::far_rules))]
fn times_x128(table: &[u32; ENTRIES], word: u64) -> u32
    requires table { IsTable 4096 table.now }
    ensures value { result ≡ times 128 word }
{
    let [a, b, c, d, e, f, g, h] = word.to_le_bytes();
    let front = table[3840 + usize::from(a)]
        ^ table[3584 + usize::from(b)]
        ^ table[3328 + usize::from(c)]
        ^ table[3072 + usize::from(d)];
    let back = table[2816 + usize::from(e)]
        ^ table[2560 + usize::from(f)]
        ^ table[2304 + usize::from(g)]
        ^ table[2048 + usize::from(h)];
    front ^ back
}

/// A remainder, to which eight bytes were added, times x to the power of 64.
#[tactic(auto, using(crate::proofs::SumLaws::entry_rules))]
fn times_x64(table: &[u32; ENTRIES], word: u64) -> u32
    requires table { IsTable 4096 table.now }
    ensures value { result ≡ times 64 word }
{
    let [a, b, c, d, e, f, g, h] = word.to_le_bytes();
    let front = table[1792 + usize::from(a)]
        ^ table[1536 + usize::from(b)]
        ^ table[1280 + usize::from(c)]
        ^ table[1024 + usize::from(d)];
    let back = table[768 + usize::from(e)]
        ^ table[512 + usize::from(f)]
        ^ table[256 + usize::from(g)]
        ^ table[usize::from(h)];
    front ^ back
}
