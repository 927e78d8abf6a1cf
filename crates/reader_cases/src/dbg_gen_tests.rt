//! A generated file. The bytes are another program's; `readelf` and `llvm-dwarfdump` read them.

use dbg_gen::generate;
use dw_base::{Order, push_long, push_word};
use std::alloc::{AllocError, Global};
use std::test::Fail;

/// A file: what stands before the section headers, and of each header its name, type, place, size and alignment.
struct Sample {
    parts: &'static [&'static [u8]],
    heads: &'static [[u64; 5]],
}

/// Seed 0 and one unit.
#[rattlefmt::skip]
const ONE_UNIT: Sample = Sample {
    parts: &[
        // the file header
        b"\x7fELF\x02\x01\x01\0\0\0\0\0\0\0\0\0\x02\0>\0\x01\0\0\0\0\0\0\0\0\0",
        b"\0\0\0\0\0\0\0\0\0\0\x18\x01\0\0\0\0\0\0\0\0\0\0@\0\0\0\0\0@\0",
        b"\x06\0\x05\0",
        // `.debug_info`
        b"\x1f\0\0\0\x04\0\0\0\0\0\x08\x01\0\0\0\0\x0e\0\0\0\0\0\0\0\x02\x17\0\0\0\x02",
        b"\x1a\0\0\0\0",
        // `.debug_abbrev`
        b"\x01\x11\x01\x03\x0e\x1b\x0e\x10\x17\0\0\x024\0\x03\x0e\0\0\0",
        // `.debug_str`
        b"/build/p/u0.c\0/build/p\0v0\0v1\0",
        // `.debug_line`
        b"?\0\0\0\x04\0)\0\0\0\x01\x01\x01\xfb\x0e\x0d\0\x01\x01\x01\x01\0\0\0\x01\0\0\x01/b",
        b"uild/p/inc\0\0u0.c\0\0\0\0\0\0\x09\x02\0\x10\0\0\0\0",
        b"\0\0!!\0\x01\x01",
        // `.shstrtab`
        b"\0.debug_info\0.debug_abbrev\0.debug_str\0.debug_line\0.shstrtab\0",
        // padding
        b"\0\0\0\0\0\0",
    ],
    heads: &[
        [0, 0, 0, 0, 0],
        [1, 1, 64, 35, 1],
        [13, 1, 99, 19, 1],
        [27, 1, 118, 29, 1],
        [38, 1, 147, 67, 1],
        [50, 3, 214, 60, 1],
    ],
};

/// Appends a section header of a name, a type, a place, a size and an alignment.
fn push_head(file: &mut Vec<u8>, head: &[u64; 5]) -> Result<(), AllocError> {
    let [name, kind, offset, size, align] = *head;
    push_word(file, Order::Little, name)?;
    push_word(file, Order::Little, kind)?;
    push_long(file, Order::Little, 0)?;
    push_long(file, Order::Little, 0)?;
    push_long(file, Order::Little, offset)?;
    push_long(file, Order::Little, size)?;
    push_long(file, Order::Little, 0)?;
    push_long(file, Order::Little, align)?;
    push_long(file, Order::Little, 0)?;
    Ok(())
}

/// The bytes of a sample.
fn built(alloc: Global, sample: &Sample) -> Result<Vec<u8>, AllocError> {
    let mut file = Vec::new(alloc);
    for part in sample.parts {
        file.extend_from_slice(part)?;
    }
    for head in sample.heads {
        push_head(&mut file, head)?;
    }
    Ok(file)
}

#[test]
fn one_unit_of_seed_0_is_these_bytes(rt: HostRuntime) -> Result<(), Fail> {
    let file = generate(rt.alloc(), 0, 1)?;
    let expected = built(rt.alloc(), &ONE_UNIT)?;
    assert_eq!(rt; file.as_slice(), expected.as_slice());
    Ok(())
}
