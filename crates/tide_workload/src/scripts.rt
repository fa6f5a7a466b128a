//! The tables of a document's mutators. Which operation a text is, `tide_text` knows.
ghost use Rattle.std.specs.Prelude.{◌≡◌, ◌≤◌, All, IfOk, length, map};
ghost use Rattle.std.specs.List.{list_all};
ghost use Rattle.std.specs.Result.{result_map_both};
ghost use Rattle.toml.specs.View.{view, table_view};
ghost use Rattle.tide_workload.specs.Scripts.{table_in, mutators_of, is_text, text_or_none, texts_of, script_texts, op_at, ops_of, scripts_of};
ghost use Rattle.tide_workload.specs.Steps.{each, Gives};

use crate::fields::{has_only, required, values_in};
use std::alloc::Global;
use tide_model::Op;
use tide_text::{Fault, Field, MAX_MUTATORS, MAX_OPS, OpArguments, op_of};
use toml::{Table, Value};

/// The table of one mutator.
fn table_in(value: &Value) -> Result<&Table, Fault>
    ensures { result_map_both (λ table. table_view table.now) (λ fault. fault) result ≡ table_in (view value.now) }
{
    value.as_table().ok_or(Fault::Bad {
        field: Field::Mutator,
    })
}

/// The tables of a document's mutators.
pub(crate) fn mutators_of(alloc: Global, document: &Table) -> Result<Vec<&Table>, Fault>
    ensures tables { Gives (λ tables. map (λ table. table_view table.now) tables.items)
        result (mutators_of (table_view document.now)) }
    ensures some { IfOk result (λ tables. 1 ≤ length tables.items) }
    ensures few { IfOk result (λ tables. length tables.items ≤ MAX_MUTATORS) }
{
    let value = required(document, Field::Mutator)?;
    let values = values_in(Field::Mutator, value, 1, MAX_MUTATORS)?;
    let mut tables = Vec::new(alloc);
    for value in values {
        tables.push(table_in(value)?)?;
    }
    Ok(tables)
}

/// The text that a value is, or an empty one where it is no text.
fn text_or_none(value: &Value) -> &str
    ensures { result.now ≡ text_or_none (view value.now) }
{
    value.as_str().unwrap_or("")
}

/// Whether each of some values is a text.
fn are_texts(values: &[Value]) -> bool
    ensures { result ≡ list_all (λ value. is_text (view value)) values.now }
{
    values.iter().all(Value::is_str)
}

/// The values of a mutator's operations, each of which is a text. The texts stay where they are.
fn texts_of(mutator: &Table) -> Result<&[Value], Fault>
    ensures texts { Gives (λ values. map (λ value. text_or_none (view value)) values.now) result
        (texts_of (table_view mutator.now)) }
    ensures short { IfOk result (λ values. length values.now ≤ MAX_OPS) }
{
    let value = required(mutator, Field::Ops)?;
    let values = values_in(Field::Ops, value, 0, MAX_OPS)?;
    if are_texts(values) {
        Ok(values)
    } else {
        Err(Fault::Bad { field: Field::Ops })
    }
}

/// The texts of a mutator whose table has nothing else.
fn script_texts(mutator: &Table) -> Result<&[Value], Fault>
    ensures texts { Gives (λ values. map (λ value. text_or_none (view value)) values.now) result
        (script_texts (table_view mutator.now)) }
    ensures short { IfOk result (λ values. length values.now ≤ MAX_OPS) }
{
    let texts = texts_of(mutator)?;
    has_only(mutator, &[Field::Ops])?;
    Ok(texts)
}

/// The texts of each mutator.
pub(crate) fn texts_of_each<'a>(
    alloc: Global,
    mutators: &[&'a Table],
) -> Result<Vec<&'a [Value]>, Fault>
    ensures texts { Gives (λ scripts. map (λ texts. map (λ value. text_or_none (view value)) texts.now) scripts.items)
        result (each script_texts (map (λ table. table_view table.now) mutators.now)) }
    ensures count { IfOk result (λ scripts. length scripts.items ≡ length mutators.now) }
    ensures short { IfOk result (λ scripts. All (λ texts. length texts.now ≤ MAX_OPS) scripts.items) }
{
    let mut scripts = Vec::with_capacity(alloc, mutators.len())?;
    for mutator in mutators {
        scripts.push(script_texts(mutator)?)?;
    }
    Ok(scripts)
}

/// The operation that a text at a place of a mutator is.
fn op_at(limits: &OpArguments<'_>, mutator: u32, at: u32, text: &str) -> Result<Op, Fault>
    ensures { result ≡ op_at limits.now mutator at text.now }
{
    op_of(text.as_bytes(), limits).ok_or(Fault::BadOp { mutator, at })
}

/// The operations of a mutator.
fn ops_of(
    alloc: Global,
    limits: &OpArguments<'_>,
    mutator: u32,
    texts: &[Value],
) -> Result<Vec<Op>, Fault>
    requires { length texts.now ≤ MAX_OPS }
    ensures ops { Gives (λ ops. ops.items) result
        (ops_of limits.now mutator (map (λ value. text_or_none (view value)) texts.now)) }
    ensures short { IfOk result (λ ops. length ops.items ≤ MAX_OPS) }
{
    let mut ops = Vec::with_capacity(alloc, texts.len())?;
    for (at, value) in texts.iter().enumerate() {
        let text = text_or_none(value);
        ops.push(op_at(limits, mutator, at as u32, text)?)?;
    }
    Ok(ops)
}

/// The operations of each mutator.
pub(crate) fn scripts_of(
    alloc: Global,
    limits: &OpArguments<'_>,
    scripts: &[&[Value]],
) -> Result<Vec<Vec<Op>>, Fault>
    requires few { length scripts.now ≤ MAX_MUTATORS }
    requires short { All (λ texts. length texts.now ≤ MAX_OPS) scripts.now }
    ensures scripts { Gives (λ ops. map (λ ops. ops.items) ops.items) result
        (scripts_of limits.now (map (λ texts. map (λ value. text_or_none (view value)) texts.now) scripts.now)) }
    ensures count { IfOk result (λ ops. length ops.items ≡ length scripts.now) }
    ensures short { IfOk result (λ ops. All (λ ops. length ops.items ≤ MAX_OPS) ops.items) }
{
    let mut ops = Vec::with_capacity(alloc, scripts.len())?;
    for (mutator, texts) in scripts.iter().enumerate() {
        ops.push(ops_of(alloc, limits, mutator as u32, texts)?)?;
    }
    Ok(ops)
}
