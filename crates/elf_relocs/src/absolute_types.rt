//! Absolute relocations: the symbol's value and the addend, in a field of 4 or 8 bytes.

ghost use Rattle.std.specs.Prelude.{◌≡◌, Some, None, is_some};
ghost use Rattle.dw_base.specs.AbsoluteTypes.{absolute_types, size_by, absolute_size};

use dw_base::AbsoluteTypes;
use dw_base::relocation_numbers::{
    EM_386, EM_AARCH64, EM_ARM, EM_PPC, EM_PPC64, EM_S390, EM_X86_64, R_386_32, R_390_32, R_390_64,
    R_AARCH64_ABS32, R_AARCH64_ABS64, R_ARM_ABS32, R_PPC_ADDR32, R_PPC64_ADDR32, R_PPC64_ADDR64,
    R_X86_64_32, R_X86_64_64,
};

/// The size of the field of an absolute type, in bytes: 4 or 8. `None` exactly where the type isn't an
/// absolute one of the machine, as 0 ("none") never is, or the machine isn't listed. The machine is
/// `e_machine`.
#[tactic(auto, unfolding(dw_base::specs::AbsoluteTypes::absolute_size))]
pub fn absolute_size(machine: u16, kind: u32) -> Option<u8>
    ensures value { result ≡ absolute_size machine kind }
{
    match absolute_types(machine) {
        Some(types) => size_by(types, kind),
        None => None,
    }
}

/// The size of the field of a type, by the absolute types of its machine.
fn size_by(types: AbsoluteTypes, kind: u32) -> Option<u8>
    ensures value { result ≡ size_by types kind }
{
    if kind == types.four {
        return Some(4);
    }
    if types.eight == Some(kind) {
        return Some(8);
    }
    None
}

/// Whether a machine is listed: its `e_machine`.
#[tactic(auto, unfolding(dw_base::specs::AbsoluteTypes::absolute_types))]
pub(crate) fn is_listed(machine: u16) -> bool
    ensures value { result ≡ is_some (absolute_types machine) }
{
    match machine {
        EM_386 => true,
        EM_PPC => true,
        EM_PPC64 => true,
        EM_S390 => true,
        EM_ARM => true,
        EM_X86_64 => true,
        EM_AARCH64 => true,
        _ => false,
    }
}

/// The row of a machine.
#[tactic(auto, unfolding(dw_base::specs::AbsoluteTypes::absolute_types))]
fn absolute_types(machine: u16) -> Option<AbsoluteTypes>
    ensures value { result ≡ absolute_types machine }
{
    match machine {
        EM_386 => Some(only_four(R_386_32)),
        EM_PPC => Some(only_four(R_PPC_ADDR32)),
        EM_PPC64 => Some(both(R_PPC64_ADDR32, R_PPC64_ADDR64)),
        EM_S390 => Some(both(R_390_32, R_390_64)),
        EM_ARM => Some(only_four(R_ARM_ABS32)),
        EM_X86_64 => Some(both(R_X86_64_32, R_X86_64_64)),
        EM_AARCH64 => Some(both(R_AARCH64_ABS32, R_AARCH64_ABS64)),
        _ => None,
    }
}

/// A row without a type for 8 bytes.
fn only_four(four: u32) -> AbsoluteTypes
    ensures four { result.four ≡ four }
    ensures eight { result.eight ≡ None }
{
    AbsoluteTypes { four, eight: None }
}

/// A row with both types.
fn both(four: u32, eight: u32) -> AbsoluteTypes
    ensures four { result.four ≡ four }
    ensures eight { result.eight ≡ Some eight }
{
    AbsoluteTypes {
        four,
        eight: Some(eight),
    }
}
