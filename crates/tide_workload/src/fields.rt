//! The fields of a document's tables, whatever is read of them.
ghost use Rattle.std.specs.Prelude.{◌≡◌, ◌≤◌, length, map, option_map, IfOk, IfSome};
ghost use Rattle.std.specs.List.{list_all};
ghost use Rattle.std.specs.Result.{result_map_both};
ghost use Rattle.toml.specs.Data.{get_member};
ghost use Rattle.toml.specs.View.{view, table_view};
ghost use Rattle.tide_text.specs.work.FieldNames.{name_of};
ghost use Rattle.tide_text.specs.work.Work.{AreOfFive, IsBetween};
ghost use Rattle.tide_workload.specs.Fields.{required, number_within, values_of, values_within, values_in, number_in, number_of_field, number_or_zero, five_in, five_of_field, five_or_zeros, member_names, is_name_of, has_only};

use tide_text::{Fault, Field};
use toml::{Table, Value};

/// The value at a field's name.
pub(crate) fn value_of(table: &Table, field: Field) -> Option<&Value>
    ensures { option_map (λ v. view v.now) result ≡ get_member (name_of field) (table_view table.now) }
{
    table.get(field.name())
}

/// The value of a field that has to be there.
pub(crate) fn required(table: &Table, field: Field) -> Result<&Value, Fault>
    ensures { result_map_both (λ v. view v.now) (λ fault. fault) result ≡ required field (table_view table.now) }
{
    value_of(table, field).ok_or(Fault::Missing { field })
}

/// The number of a value that is an integer from `least` to `most`.
fn number_within(value: &Value, least: u32, most: u32) -> Option<u32>
    ensures value { result ≡ number_within least most (view value.now) }
    ensures within { IfSome result (IsBetween least most) }
{
    let number = u32::try_from(value.as_integer()?).ok()?;
    if least <= number && number <= most {
        Some(number)
    } else {
        None
    }
}

/// The number of a field's value.
fn number_in(field: Field, value: &Value, least: u32, most: u32) -> Result<u32, Fault>
    ensures value { result ≡ number_in field least most (view value.now) }
    ensures within { IfOk result (IsBetween least most) }
{
    number_within(value, least, most).ok_or(Fault::Bad { field })
}

/// The number of a field that has to be there.
pub(crate) fn number_of_field(
    table: &Table,
    field: Field,
    least: u32,
    most: u32,
) -> Result<u32, Fault>
    ensures value { result ≡ number_of_field field least most (table_view table.now) }
    ensures within { IfOk result (IsBetween least most) }
{
    number_in(field, required(table, field)?, least, most)
}

/// The number of a field, 0 where it isn't there.
pub(crate) fn number_or_zero(table: &Table, field: Field, most: u32) -> Result<u32, Fault>
    ensures value { result ≡ number_or_zero field most (table_view table.now) }
    ensures within { IfOk result (λ n. n ≤ most) }
{
    match value_of(table, field) {
        Some(value) => number_in(field, value, 0, most),
        None => Ok(0),
    }
}

/// The number of a field's value, where it is at most a byte's.
fn byte_in(field: Field, value: &Value, most: u8) -> Result<u8, Fault>
    ensures value { result ≡ number_in field 0 most (view value.now) }
    ensures within { IfOk result (λ n. n ≤ most) }
{
    Ok(number_in(field, value, 0, u32::from(most))? as u8)
}

/// The values of an array.
fn values_of(value: &Value) -> Option<&[Value]>
    ensures { option_map (λ values. map view values.now) result ≡ values_of (view value.now) }
{
    let values = value.as_array()?;
    Some(values.as_slice())
}

/// The values of an array of at least `least` and at most `most`.
fn values_within(value: &Value, least: usize, most: usize) -> Option<&[Value]>
    ensures value { option_map (λ values. map view values.now) result ≡ values_within least most (view value.now) }
    ensures within { IfSome result (λ values. (least ≤ length values.now) × (length values.now ≤ most)) }
{
    let values = values_of(value)?;
    if least <= values.len() && values.len() <= most {
        Some(values)
    } else {
        None
    }
}

/// The values of a field's array.
pub(crate) fn values_in(
    field: Field,
    value: &Value,
    least: usize,
    most: usize,
) -> Result<&[Value], Fault>
    ensures value { result_map_both (λ values. map view values.now) (λ fault. fault) result ≡
        values_in field least most (view value.now) }
    ensures within { IfOk result (λ values. (least ≤ length values.now) × (length values.now ≤ most)) }
{
    values_within(value, least, most).ok_or(Fault::Bad { field })
}

/// The five numbers, each at most `most`, of a field's value.
fn five_in(field: Field, value: &Value, most: u8) -> Result<[u8; 5], Fault>
    ensures value { result ≡ five_in field most (view value.now) }
    ensures within { IfOk result (AreOfFive most) }
{
    let values = values_in(field, value, 5, 5)?;
    let mut numbers = [0; 5];
    for i in 0..5 {
        numbers[i] = byte_in(field, &values[i], most)?;
    }
    Ok(numbers)
}

/// The five numbers of a field that has to be there.
pub(crate) fn five_of_field(table: &Table, field: Field, most: u8) -> Result<[u8; 5], Fault>
    ensures value { result ≡ five_of_field field most (table_view table.now) }
    ensures within { IfOk result (AreOfFive most) }
{
    five_in(field, required(table, field)?, most)
}

/// The five numbers of a field, all 0 where it isn't there.
pub(crate) fn five_or_zeros(table: &Table, field: Field, most: u8) -> Result<[u8; 5], Fault>
    ensures value { result ≡ five_or_zeros field most (table_view table.now) }
    ensures within { IfOk result (AreOfFive most) }
{
    match value_of(table, field) {
        Some(value) => five_in(field, value, most),
        None => Ok([0; 5]),
    }
}

/// Whether a name is that of one of these fields.
fn is_name_of(fields: &[Field], name: &str) -> bool
    ensures { result ≡ is_name_of fields.now name.now }
{
    fields.iter().any(|field| field.name() == name)
}

/// Refuses a table with a name that none of these fields has.
pub(crate) fn has_only(table: &Table, fields: &[Field]) -> Result<(), Fault>
    ensures { result ≡ has_only fields.now (table_view table.now) }
{
    for name in table.keys() {
        if !is_name_of(fields, name.as_str()) {
            return Err(Fault::Bad {
                field: Field::Other,
            });
        }
    }
    Ok(())
}
