//! The values at keys of a table, by their kinds.
ghost use Rattle.std.specs.Prelude.{◌≡◌, map, option_map, string_bytes};
ghost use Rattle.toml.specs.Data.{get_member};
ghost use Rattle.toml.specs.View.{view, table_view};
ghost use Rattle.saga_bytes.specs.Readings.{each, seen};
ghost use Rattle.saga_text.specs.Reads.{Gives};
ghost use Rattle.saga_text.specs.Kinds.{has_key, text_of, name_at, price_in, price_at, count_in, count_at, items_of, list_at, texts_at};

use crate::faults::TextFault;
use saga_def::{Price, Text};
use std::alloc::Global;
use toml::{Table, Value};

/// The value at a key.
pub fn value_at<'a>(table: &'a Table, key: &str) -> Option<&'a Value>
    ensures { option_map (λ v. view v.now) result
        ≡ get_member key.now (table_view table.entry.now) }
{
    table.get(key)
}

/// Whether the table has the key.
pub fn has_key(table: &Table, key: &str) -> bool
    ensures { result ≡ has_key key.now (table_view table.now) }
{
    value_at(table, key).is_some()
}

/// A text.
pub fn text_of(value: &Value) -> Result<&str, TextFault>
    ensures { seen (λ t. t.now) result ≡ text_of (view value.entry.now) }
{
    match value {
        Value::String(text) => Ok(text.as_str()),
        _ => Err(TextFault::BadType),
    }
}

/// The text at a key, copied.
pub fn name_at(alloc: Global, table: &Table, key: &str) -> Result<Text, TextFault>
    ensures { Gives (λ t. t) result (name_at key.now (table_view table.now)) }
{
    match value_at(table, key) {
        None => Err(TextFault::MissingKey),
        Some(value) => Ok(Text::new(String::from_str(alloc, text_of(value)?)?)),
    }
}

/// A cost. It is 0 if there is no value.
fn price_in(value: Option<&Value>) -> Result<Price, TextFault>
    ensures { result ≡ price_in (option_map (λ v. view v.now) value.entry) }
{
    match value {
        None => Ok(Price::Of(0)),
        Some(Value::Integer(amount)) if *amount >= 0 => Ok(Price::Of(*amount as u64)),
        Some(Value::String(text)) if text.as_str() == "never" => Ok(Price::Never),
        Some(_) => Err(TextFault::BadType),
    }
}

/// The cost at a key. It is 0 if the key is missing.
pub fn price_at(table: &Table, key: &str) -> Result<Price, TextFault>
    ensures { result ≡ price_at key.now (table_view table.now) }
{
    price_in(value_at(table, key))
}

/// A count. It is 1 if there is no value.
fn count_in(value: Option<&Value>) -> Result<u64, TextFault>
    ensures { result ≡ count_in (option_map (λ v. view v.now) value.entry) }
{
    match value {
        None => Ok(1),
        Some(Value::Integer(count)) if *count >= 0 => Ok(*count as u64),
        Some(_) => Err(TextFault::BadType),
    }
}

/// The count at a key. It is 1 if the key is missing.
pub fn count_at(table: &Table, key: &str) -> Result<u64, TextFault>
    ensures { result ≡ count_at key.now (table_view table.now) }
{
    count_in(value_at(table, key))
}

/// The items of a list.
fn items_of(value: &Value) -> Result<&[Value], TextFault>
    ensures { seen (λ items. map view items.now) result ≡ items_of (view value.entry.now) }
{
    match value {
        Value::Array(items) => Ok(items.as_slice()),
        _ => Err(TextFault::BadType),
    }
}

/// The items of the list at a key, or none if the key is missing.
pub fn list_at<'a>(table: &'a Table, key: &str) -> Result<&'a [Value], TextFault>
    ensures { seen (λ items. map view items.now) result
        ≡ list_at key.now (table_view table.entry.now) }
{
    match value_at(table, key) {
        None => Ok(&[]),
        Some(value) => items_of(value),
    }
}

/// Each item as a text.
fn texts_of<'a>(alloc: Global, items: &'a [Value]) -> Result<Vec<&'a str>, TextFault>
    ensures { Gives (λ texts. map (λ t. t.now) texts.items) result
        (each text_of (map view items.entry.now)) }
{
    let mut texts = Vec::new(alloc);
    for item in items {
        texts.push(text_of(item)?)?;
    }
    Ok(texts)
}

/// The texts of the list at a key.
pub fn texts_at<'a>(alloc: Global, table: &'a Table, key: &str) -> Result<Vec<&'a str>, TextFault>
    ensures { Gives (λ texts. map (λ t. t.now) texts.items) result
        (texts_at key.now (table_view table.entry.now)) }
{
    texts_of(alloc, list_at(table, key)?)
}
