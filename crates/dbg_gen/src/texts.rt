//! The table of texts (DWARF 4, 7.5.4, class string).

ghost use Rattle.std.specs.Prelude.{◌≡◌, [], length, IfOk, OnOk};
ghost use Rattle.std.specs.String.{string_bytes};
ghost use Rattle.dw_base.specs.Lists.{tabulate};
ghost use Rattle.dw_base.specs.StringTables.{with_added};
ghost use Rattle.dbg_gen.specs.GeneratedTexts.{chained, directory, each_once, texts_of, unit_name, unit_texts, variable_name};

use dw_base::NoMemory;
use dw_strings::Pool;
use std::alloc::{AllocError, Global};

/// The directory in which all units were compiled.
pub(crate) fn directory() -> &'static [u8]
    ensures { result.now ≡ directory }
{
    b"/build/p"
}

/// The name of a unit.
pub(crate) fn unit_name(alloc: Global, unit: u32) -> Result<String, AllocError>
    ensures text { IfOk result (λ name. string_bytes name ≡ unit_name unit) }
{
    format!(in alloc; "/build/p/u{unit}.c")
}

/// The name of a variable.
pub(crate) fn variable_name(alloc: Global, variable: u64) -> Result<String, AllocError>
    ensures text { IfOk result (λ name. string_bytes name ≡ variable_name variable) }
{
    format!(in alloc; "v{variable}")
}

/// Adds the name of a variable.
#[tactic(auto, using(crate::proofs::OnceLaws::bare_laws))]
fn add_variable(alloc: Global, texts: &mut Pool, variable: u64) -> Result<(), NoMemory>
    ensures added { OnOk result (texts.new ≡ with_added texts.old (variable_name variable)) }
{
    let name = variable_name(alloc, variable)?;
    texts.add(name.as_str().as_bytes())?;
    Ok(())
}

/// Adds the names of so many variables.
#[tactic(auto, using(crate::proofs::OnceLaws::once_laws))]
fn add_variables(alloc: Global, texts: &mut Pool, count: u64) -> Result<(), NoMemory>
    ensures added { OnOk result (texts.new ≡ record { kept = texts.old.kept; texts = each_once texts.old.texts (tabulate variable_name count) }) }
{
    for variable in 0..count {
        add_variable(alloc, texts, variable)?;
    }
    Ok(())
}

/// Adds the texts that a unit names.
#[tactic(auto, using(crate::proofs::OnceLaws::bare_laws))]
fn add_unit(alloc: Global, texts: &mut Pool, unit: u32, count: u64) -> Result<(), NoMemory>
    ensures added { OnOk result (texts.new ≡ record { kept = texts.old.kept; texts = each_once texts.old.texts (unit_texts unit count) }) }
{
    let name = unit_name(alloc, unit)?;
    texts.add(name.as_str().as_bytes())?;
    texts.add(directory())?;
    add_variables(alloc, texts, count)?;
    Ok(())
}

/// The texts of so many units, which have so many variables each.
#[tactic(auto, using(crate::proofs::OnceLaws::once_laws), unfolding(crate::specs::GeneratedTexts::texts_of))]
pub(crate) fn texts_of(alloc: Global, counts: &[u64], units: u32) -> Result<Pool, NoMemory>
    requires each { length counts.now ≡ units }
    ensures texts { IfOk result (λ texts. texts ≡ record { kept = []; texts = texts_of counts.now units }) }
{
    let mut texts = Pool::new(alloc, b"")?;
    for unit in 0..units {
        add_unit(alloc, &mut texts, unit, counts[unit as usize])?;
    }
    Ok(texts)
}
