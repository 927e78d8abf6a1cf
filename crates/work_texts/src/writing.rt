//! The texts `plan` and `finished`, written (this project's profile).
//!
//! **This layer promises**: what is written is the text that `specs/Fields.antt` defines.
ghost use Rattle.std.specs.Prelude.{◌≡◌, ◌++◌, ◌∷◌, [], OnOk, IfOk, false, map};
ghost use Rattle.std.specs.List.{flat_map};
ghost use Rattle.work_texts.specs.Lists.{bytes_of};
ghost use Rattle.std.specs.Fmt.{decimal};
ghost use Rattle.hex.specs.Hex.{encode_lower};
ghost use Rattle.work_texts.specs.Fields.{text_of, flag_field, key_fields, pair_fields, side_fields, job_fields, keyed_fields, plan_fields, finished_fields};

use crate::key::RunKey;
use crate::plan::{JobLine, PlanData};
use dw_base::NoMemory;
use dw_paths::MapPair;
use file_tree::Blob;
use std::alloc::{AllocError, Global};

/// Appends a field and its NUL.
fn put_field(out: &mut Vec<u8>, field: &[u8]) -> Result<(), AllocError>
    ensures value { OnOk result (out.new.items ≡ out.old.items ++ text_of (field.now ∷ [])) }
{
    out.extend_from_slice(field)?;
    out.push(0)?;
    Ok(())
}

/// Appends a number.
fn put_number(alloc: Global, out: &mut Vec<u8>, number: u64) -> Result<(), AllocError>
    ensures value { OnOk result (out.new.items ≡ out.old.items ++ text_of (decimal number ∷ [])) }
{
    let text = format!(in alloc; "{number}")?;
    put_field(out, text.as_str().as_bytes())?;
    Ok(())
}

/// Appends hexadecimal digits.
fn put_digits(alloc: Global, out: &mut Vec<u8>, bytes: &[u8]) -> Result<(), AllocError>
    ensures value { OnOk result (out.new.items ≡ out.old.items ++ text_of (encode_lower bytes.now ∷ [])) }
{
    let text = hex::encode(alloc, bytes)?;
    put_field(out, text.as_str().as_bytes())?;
    Ok(())
}

/// An option that is on or off.
pub(crate) fn flag(on: bool) -> &'static [u8]
    ensures value { result.now ≡ flag_field on }
{
    if on { b"1" } else { b"0" }
}

/// Appends the fields of a key that a text of either version has.
#[tactic(auto, using(crate::proofs::WriteRules::write_rules))]
fn put_first(alloc: Global, out: &mut Vec<u8>, key: &RunKey) -> Result<(), AllocError>
    ensures value { OnOk result (out.new.items ≡ out.old.items ++ text_of (key_fields key.now)) }
{
    put_field(out, key.maps.base())?;
    put_field(out, key.maps.dest())?;
    put_field(out, flag(key.build_id))?;
    put_field(out, key.seed.as_slice())?;
    put_field(out, flag(key.skip))?;
    put_number(alloc, out, key.max_file)?;
    Ok(())
}

/// Appends a pair of a map: its base and its destination.
#[tactic(auto, using(crate::proofs::WriteRules::write_rules))]
fn put_pair(out: &mut Vec<u8>, pair: &MapPair) -> Result<(), AllocError>
    ensures value { OnOk result (out.new.items ≡ out.old.items ++ text_of (side_fields pair.now)) }
{
    put_field(out, &pair.base)?;
    put_field(out, &pair.dest)?;
    Ok(())
}

/// Appends pairs of a map.
#[tactic(auto, using(crate::proofs::WriteRules::loop_rules))]
fn put_pairs(out: &mut Vec<u8>, pairs: &[MapPair]) -> Result<(), AllocError>
    ensures value { OnOk result (out.new.items ≡ out.old.items ++ text_of (pair_fields pairs.now)) }
{
    for pair in pairs {
        put_pair(out, pair)?;
    }
    Ok(())
}

/// Appends a key.
#[tactic(auto, using(crate::proofs::WriteRules::write_rules))]
fn put_key(alloc: Global, out: &mut Vec<u8>, key: &RunKey) -> Result<(), AllocError>
    ensures value { OnOk result (out.new.items ≡ out.old.items ++ text_of (keyed_fields false key.now)) }
{
    let more = key.maps.more();
    put_first(alloc, out, key)?;
    put_number(alloc, out, more.len() as u64)?;
    put_pairs(out, more)?;
    Ok(())
}

/// The text of pairs of a map.
pub(crate) fn pairs_text(alloc: Global, pairs: &[MapPair]) -> Result<Blob, AllocError>
    ensures value { IfOk result (λ text. text ≡ text_of (pair_fields pairs.now)) }
{
    let mut out = Vec::new(alloc);
    put_pairs(&mut out, pairs)?;
    Ok(Blob::new(out))
}

/// Appends a job.
#[tactic(auto, using(crate::proofs::WriteRules::write_rules))]
fn put_job(alloc: Global, out: &mut Vec<u8>, job: &JobLine) -> Result<(), AllocError>
    ensures value { OnOk result (out.new.items ≡ out.old.items ++ text_of (job_fields job.now)) }
{
    put_field(out, if job.split { b"S" } else { b"E" })?;
    put_field(out, job.path.as_str().as_bytes())?;
    put_digits(alloc, out, job.digest.as_slice())?;
    put_digits(alloc, out, job.id.as_slice())?;
    put_number(alloc, out, job.number as u64)?;
    Ok(())
}

/// Appends jobs.
#[tactic(auto, using(crate::proofs::WriteRules::loop_rules))]
fn put_jobs(alloc: Global, out: &mut Vec<u8>, jobs: &[JobLine]) -> Result<(), AllocError>
    ensures value { OnOk result (out.new.items ≡ out.old.items ++ text_of (flat_map job_fields jobs.now)) }
{
    for job in jobs {
        put_job(alloc, out, job)?;
    }
    Ok(())
}

/// Appends the names of sources.
#[tactic(auto, using(crate::proofs::WriteRules::loop_rules))]
fn put_sources(out: &mut Vec<u8>, names: &[Vec<u8>]) -> Result<(), AllocError>
    ensures value { OnOk result (out.new.items ≡ out.old.items ++ text_of (map bytes_of names.now)) }
{
    for name in names {
        put_field(out, name)?;
    }
    Ok(())
}

/// The text `plan` of a plan, in version 2.
#[tactic(auto, using(crate::proofs::WriteRules::write_rules))]
pub fn write_plan(alloc: Global, plan: &PlanData) -> Result<Vec<u8>, NoMemory>
    ensures value { IfOk result (λ text. text.items ≡ text_of (plan_fields plan.now)) }
{
    let mut out = Vec::new(alloc);
    put_field(&mut out, b"dbgplan 2")?;
    put_key(alloc, &mut out, &plan.key)?;
    put_field(&mut out, plan.report.as_slice())?;
    put_number(alloc, &mut out, plan.jobs.len() as u64)?;
    put_jobs(alloc, &mut out, plan.jobs.as_slice())?;
    put_number(alloc, &mut out, plan.sources.len() as u64)?;
    put_sources(&mut out, plan.sources.as_slice())?;
    put_field(&mut out, b"end")?;
    Ok(out)
}

/// The text `finished` of a key and a report, in version 2.
#[tactic(auto, using(crate::proofs::WriteRules::write_rules))]
pub fn write_finished(alloc: Global, key: &RunKey, report: &[u8]) -> Result<Vec<u8>, NoMemory>
    ensures value { IfOk result (λ text. text.items ≡ text_of (finished_fields (record { old = false; key = key.now; report = report.now }))) }
{
    let mut out = Vec::new(alloc);
    put_field(&mut out, b"dbgfinished 2")?;
    put_key(alloc, &mut out, key)?;
    put_field(&mut out, report)?;
    Ok(out)
}
