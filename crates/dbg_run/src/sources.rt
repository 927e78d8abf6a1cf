//! The list of a file's sources.
ghost use Rattle.std.specs.Prelude.{◌≡◌, ◌≤◌, ◌++◌, ◌∷◌, [], length, map, IfErr, IfOk, OnOk};
ghost use Rattle.dw_base.specs.FileViews.{view_of};
ghost use Rattle.dw_base.specs.Layout.{output_limit};
ghost use Rattle.dw_base.specs.Texts.{laid_texts};
ghost use Rattle.dw_lines.specs.ViewTables.{TablesFound};
ghost use Rattle.dw_sources.specs.KeptNames.{bytes_of};
ghost use Rattle.dbg_job.specs.EditedFiles.{IsEditable};
ghost use Rattle.dbg_ends.specs.declared.end.End.TheVariants as end;
ghost use Rattle.dbg_run.specs.Edits.{IsListText};

use dbg_ends::End;
use dbg_job::source_names;
use dw_lines::LineTable;
use job_types::Options;
use std::alloc::{AllocError, Global};

/// Adds a name and its NUL.
fn push_name(text: &mut Vec<u8>, name: &[u8]) -> Result<(), AllocError>
    ensures value { OnOk result (text.new.items ≡ text.old.items ++ (name.now ++ 0 ∷ [])) }
{
    text.extend_from_slice(name)?;
    text.push(0)?;
    Ok(())
}

/// Names, each with its NUL.
#[tactic(auto, using(crate::proofs::SourceLaws::text_rules))]
fn names_text(alloc: Global, names: &[Vec<u8>]) -> Result<Vec<u8>, AllocError>
    ensures value { IfOk result (λ text. text.items ≡ laid_texts (map bytes_of names.now)) }
{
    let mut text = Vec::new(alloc);
    for name in names {
        push_name(&mut text, name)?;
    }
    Ok(text)
}

/// The list of the sources of a file that is edited, by its line tables: their names below the map's bases, each ended
/// by a NUL. Want of memory alone is in the way.
#[tactic(auto, using(crate::proofs::SourceLaws::list_rules))]
pub(crate) fn list_text(
    alloc: Global,
    bytes: &Vec<u8>,
    options: &Options,
    tables: Vec<LineTable>,
) -> Result<Vec<u8>, End>
    requires small { length bytes.now.items ≤ output_limit }
    requires editable { IsEditable options.now bytes.now.items }
    requires tables { TablesFound (view_of bytes.now.items) tables.items }
    ensures text { IfOk result (λ text. IsListText options.now.maps bytes.now.items text.items) }
    ensures memory { IfErr result (λ e. e ≡ end.NoMemory) }
{
    match source_names(alloc, bytes.as_slice(), &options.maps, tables) {
        Ok(names) => Ok(names_text(alloc, names.as_slice())?),
        Err(_) => Err(End::NoMemory),
    }
}
