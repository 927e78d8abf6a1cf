//! The values of attributes, by their forms (DWARF 5, 7.5.5 and 7.5.6).
//!
//! This layer promises: a value's class, number, place, length and size are those of the table of forms,
//! in every width, version, address size and byte order; a value is refused only where its form isn't
//! listed, leads to another form in front or to a number that the abbreviation has, refers to another
//! file, or passes the end, at the value's start. No call takes memory.
//! It does not promise: what the attribute means.
//! Read first: `dw_base/specs/Forms.antt`, then `dw_base/specs/Values.antt` and
//! `dw_base/specs/FormFails.antt`.
//!
//! ```
//! use dw_forms::{size_at, value_at, Order, Params, Spec, ValueClass, Width};
//!
//! // DW_AT_decl_line by DW_FORM_data2, in a unit of version 4.
//! let spec = Spec { name: 0x3b, form: 0x05, implicit: 0 };
//! let params = Params { order: Order::Little, width: Width::W32, version: 4, address: 8 };
//! let value = value_at(&spec, &params, 1, &[0x34, 0x12], 0, 2)?;
//! assert_eq!(rt; (value.class, value.number), (ValueClass::Number, 0x1234));
//! assert_eq!(rt; size_at(&spec, &params, 1, &[0x34, 0x12], 0, 2)?, 2);
//! ```
#![tactic(auto)]

mod fixed;
mod kind_sizes;
mod kind_values;
mod kinds;
mod size;
mod value;

pub use dw_base::{Kind, Order, Params, Refusal, Spec, Value, ValueClass, Width};
pub use fixed::{FixedSize, fixed_size};
pub use kinds::{FieldSize, FormKind, form_kind, plain_size};
pub use size::size_at;
pub use value::value_at;
