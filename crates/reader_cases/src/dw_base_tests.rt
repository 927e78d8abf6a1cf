//! Numbers at places in a file, by the examples of the standards.

use dw_base::*;

/// DWARF 5, 7.6, tables 7.7 and 7.8, and one that has no end; 7.4: width, length and the size of the field.
#[test]
fn numbers_are_those_of_the_standard(rt: HostRuntime) {
    assert_eq!(rt; uleb_at(&[0xe5, 0x8e, 0x26], 0), Some((624485, 3)));
    assert_eq!(rt; sleb_at(&[0x80, 0x7f], 0), Some((-128, 2)));
    assert_eq!(rt; uleb_at(&[0x80, 0x80], 0), None);
    let wide = [0xff, 0xff, 0xff, 0xff, 0x10, 0, 0, 0, 0, 0, 0, 0];
    let found = initial_length_at(Order::Little, &wide, 0);
    assert_eq!(rt; found, Some((Width::W64, 16, 12)));
    let reserved = [0xf0, 0xff, 0xff, 0xff];
    assert_eq!(rt; initial_length_at(Order::Little, &reserved, 0), None);
}
