//! The table by which sixteen bytes are divided at once, for CRC-32 (ISO 3309; ITU-T V.42, 8.1.1.6.2).
//!
//! `make_table` makes the defined entries, and takes no memory.

ghost use Rattle.std.specs.Prelude.{◌≡◌, ◌≤◌};
ghost use Rattle.debug_link.specs.Sums.{times_x};
ghost use Rattle.debug_link.specs.Tables.{times, IsTable};

/// The divisor without its highest term, the lowest term in the highest bit.
const DIVISOR: u32 = 0xedb8_8320;

/// How many entries the table has: 256 for each of sixteen bytes.
pub const ENTRIES: usize = 4096;

/// A remainder times x.
fn times_x(rest: u32) -> u32
    ensures value { result ≡ times_x rest }
{
    if rest % 2 == 1 {
        (rest / 2) ^ DIVISOR
    } else {
        rest / 2
    }
}

/// A remainder times x to the power of 8.
#[tactic(auto, using(crate::proofs::SumLaws::times_rules))]
fn times_x8(rest: u32) -> u32
    ensures value { result ≡ times 8 rest }
{
    let mut product = rest;
    'terms: for i in 0..8_u32 {
        product = times_x(product);
    }
    product
}

/// The table: an entry for each byte, and how many bytes stand behind it.
pub fn make_table() -> [u32; ENTRIES]
    ensures value { IsTable 4096 result }
{
    let mut table = [0; ENTRIES];
    put_first(&mut table);
    put_others(&mut table);
    table
}

/// Puts the entries of bytes behind which none stands.
#[tactic(auto, using(crate::proofs::TableLaws::first_rules))]
fn put_first(table: &mut [u32; ENTRIES])
    ensures value { IsTable 256 table.new }
{
    'entries: for i in 0..256 {
        table[i] = times_x8(i as u32);
    }
}

/// Puts the other entries, each from that with a byte less behind it.
#[tactic(auto, using(crate::proofs::TableLaws::other_rules))]
fn put_others(table: &mut [u32; ENTRIES])
    requires first { IsTable 256 table.old }
    ensures value { IsTable 4096 table.new }
{
    'entries: for i in 256..ENTRIES {
        let before = table[i - 256];
        table[i] = (before / 256) ^ table[(before % 256) as usize];
    }
}
