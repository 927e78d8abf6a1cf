//! Units with their entries (DWARF 4, 7.5).

ghost use Rattle.std.specs.Prelude.{◌≡◌, ◌++◌, ◌<◌, ◌≤◌, [], true, length, ℕ, IfOk, OnOk};
ghost use Rattle.dw_base.specs.Texts.{is_in};
ghost use Rattle.dbg_gen.specs.Asked.{AreFew, HasUnit, HasUnits};
ghost use Rattle.dbg_gen.specs.GeneratedLines.{line_table, lines_of};
ghost use Rattle.dbg_gen.specs.GeneratedTexts.{chained, directory, unit_name, variable_name};
ghost use Rattle.dbg_gen.specs.GeneratedUnits.{text_offset, unit_entries, unit_entry, unit_bytes, unit_with, units_of, variable_entry};

use crate::lines::push_line_table;
use crate::texts::{directory, unit_name, variable_name};
use dw_base::{NoMemory, Order, push_word};
use dw_strings::Pool;
use std::alloc::{AllocError, Global};

/// Appends the offset of a text.
fn push_offset(entries: &mut Vec<u8>, texts: &Pool, text: &[u8]) -> Result<(), AllocError>
    requires bare { texts.now.kept ≡ [] }
    requires there { is_in texts.now.texts text.now ≡ true }
    ensures pushed { OnOk result (entries.new.items ≡ entries.old.items ++ text_offset texts.now.texts text.now) }
{
    match texts.place(text) {
        Some(place) => push_word(entries, Order::Little, place),
        None => unreachable!(),
    }
}

/// Appends the entry of a unit whose line table stands at a place.
fn push_unit_entry(
    alloc: Global,
    entries: &mut Vec<u8>,
    texts: &Pool,
    unit: u32,
    lines: u64,
) -> Result<(), AllocError>
    requires bare { texts.now.kept ≡ [] }
    requires name { is_in texts.now.texts (unit_name unit) ≡ true }
    requires directory { is_in texts.now.texts directory ≡ true }
    ensures pushed { OnOk result (entries.new.items ≡ entries.old.items ++ unit_entry texts.now.texts unit lines) }
{
    let name = unit_name(alloc, unit)?;
    entries.push(1)?;
    push_offset(entries, texts, name.as_str().as_bytes())?;
    push_offset(entries, texts, directory())?;
    push_word(entries, Order::Little, lines)?;
    Ok(())
}

/// Appends the entry of a variable.
fn push_variable(
    alloc: Global,
    entries: &mut Vec<u8>,
    texts: &Pool,
    variable: u64,
) -> Result<(), AllocError>
    requires bare { texts.now.kept ≡ [] }
    requires name { is_in texts.now.texts (variable_name variable) ≡ true }
    ensures pushed { OnOk result (entries.new.items ≡ entries.old.items ++ variable_entry texts.now.texts variable) }
{
    let name = variable_name(alloc, variable)?;
    entries.push(2)?;
    push_offset(entries, texts, name.as_str().as_bytes())?;
    Ok(())
}

/// Appends the entries of so many variables.
#[tactic(auto, using(crate::proofs::OnceLaws::chain_laws))]
fn push_variables(
    alloc: Global,
    entries: &mut Vec<u8>,
    texts: &Pool,
    count: u64,
) -> Result<(), AllocError>
    requires bare { texts.now.kept ≡ [] }
    requires names { (i : ℕ) → i < count → is_in texts.now.texts (variable_name i) ≡ true }
    ensures pushed { OnOk result (entries.new.items ≡ entries.old.items ++ chained (variable_entry texts.now.texts) count) }
{
    for variable in 0..count {
        push_variable(alloc, entries, texts, variable)?;
    }
    Ok(())
}

/// The entries of a unit with so many variables, whose line table stands at a place.
#[tactic(auto, unfolding(crate::specs::GeneratedUnits::unit_entries))]
fn unit_entries(
    alloc: Global,
    texts: &Pool,
    unit: u32,
    count: u64,
    lines: u64,
) -> Result<Vec<u8>, AllocError>
    requires bare { texts.now.kept ≡ [] }
    requires there { HasUnit texts.now.texts unit count }
    ensures entries { IfOk result (λ entries. entries.items ≡ unit_entries texts.now.texts unit count lines) }
{
    let mut entries = Vec::new(alloc);
    push_unit_entry(alloc, &mut entries, texts, unit, lines)?;
    push_variables(alloc, &mut entries, texts, count)?;
    entries.push(0)?;
    Ok(entries)
}

/// Appends a unit of these entries.
#[tactic(auto, unfolding(crate::specs::GeneratedUnits::unit_with))]
fn push_with(units: &mut Vec<u8>, entries: &[u8]) -> Result<(), AllocError>
    ensures pushed { OnOk result (units.new.items ≡ units.old.items ++ unit_with entries.now) }
{
    push_word(units, Order::Little, 7 + entries.len() as u64)?;
    units.extend_from_slice(&[4, 0, 0, 0, 0, 0, 8])?;
    units.extend_from_slice(entries)?;
    Ok(())
}

/// Appends a unit with so many variables, and its line table.
fn push_unit(
    alloc: Global,
    units: &mut Vec<u8>,
    lines: &mut Vec<u8>,
    texts: &Pool,
    unit: u32,
    count: u64,
) -> Result<(), AllocError>
    requires bare { texts.now.kept ≡ [] }
    requires there { HasUnit texts.now.texts unit count }
    requires few { count ≤ 16 }
    ensures unit { OnOk result (units.new.items ≡ units.old.items ++ unit_bytes texts.now.texts unit count (length lines.old.items)) }
    ensures table { OnOk result (lines.new.items ≡ lines.old.items ++ line_table unit count) }
{
    let place = lines.len() as u64;
    let entries = unit_entries(alloc, texts, unit, count, place)?;
    push_with(units, &entries)?;
    push_line_table(alloc, lines, unit, count)?;
    Ok(())
}

/// The units, which have so many variables each, for these texts, and their line tables.
#[tactic(auto, unfolding(crate::specs::GeneratedUnits::units_of, crate::specs::GeneratedLines::lines_of))]
pub(crate) fn units_of(
    alloc: Global,
    texts: &Pool,
    counts: &[u64],
    units: u32,
) -> Result<(Vec<u8>, Vec<u8>), AllocError>
    requires bare { texts.now.kept ≡ [] }
    requires each { length counts.now ≡ units }
    requires few { AreFew counts.now }
    requires there { HasUnits texts.now.texts counts.now units }
    ensures units { IfOk result (λ p. p.0.items ≡ units_of texts.now.texts counts.now units) }
    ensures lines { IfOk result (λ p. p.1.items ≡ lines_of counts.now units) }
{
    let mut info = Vec::new(alloc);
    let mut lines = Vec::new(alloc);
    for unit in 0..units {
        push_unit(
            alloc,
            &mut info,
            &mut lines,
            texts,
            unit,
            counts[unit as usize],
        )?;
    }
    Ok((info, lines))
}
