//! The two kinds of sections that hold units (DWARF 4 and 5, 7.5.1).

ghost use Rattle.std.specs.Prelude.{◌≡◌, IsTrue};
ghost use Rattle.dw_base.specs.UnitHeaders.{is_address_size, is_split_type, is_unit_type, is_version, old_unit_type};
ghost use Rattle.dw_entries.specs.ViewUnits.{as_kind};

use dw_base::dwarf_numbers::{DW_UT_compile, DW_UT_skeleton, DW_UT_split_type, DW_UT_type};

/// A section that holds units.
#[derive(Clone, Copy, Debug, PartialEq, Eq)]
pub(crate) enum UnitsOf {
    /// `.debug_info`.
    Info,
    /// `.debug_types`, of version 4 alone.
    Types,
}

/// Whether a unit of the section may have a version.
pub(crate) fn is_version(kind: UnitsOf, version: u64) -> bool
    ensures { result ≡ is_version (as_kind kind) version }
{
    match kind {
        UnitsOf::Info => version == 2 || version == 3 || version == 4 || version == 5,
        UnitsOf::Types => version == 4,
    }
}

/// Whether a unit of version 5 may have a unit type.
pub(crate) fn is_unit_type(unit_type: u64) -> bool
    ensures { result ≡ is_unit_type unit_type }
{
    DW_UT_compile <= unit_type && unit_type <= DW_UT_split_type
}

/// Whether a unit type is one of split DWARF.
pub(crate) fn is_split_type(unit_type: u64) -> bool
    ensures { result ≡ is_split_type unit_type }
{
    DW_UT_skeleton <= unit_type && unit_type <= DW_UT_split_type
}

/// Whether addresses of a unit may have so many bytes.
pub(crate) fn is_address_size(size: u64) -> bool
    ensures { result ≡ is_address_size size }
{
    size == 2 || size == 4 || size == 8
}

/// The unit type of a unit before version 5.
pub(crate) fn old_unit_type(kind: UnitsOf) -> u64
    ensures { result ≡ old_unit_type (as_kind kind) }
{
    match kind {
        UnitsOf::Info => DW_UT_compile,
        UnitsOf::Types => DW_UT_type,
    }
}
