//! The allowed and the required keys of a file.
ghost use Rattle.std.specs.Prelude.{◌≡◌, ◌&&◌, map};
ghost use Rattle.std.specs.List.{list_all};
ghost use Rattle.toml.specs.View.{view, table_view};
ghost use Rattle.saga_text.specs.Trees.{keys_of};
ghost use Rattle.saga_text.specs.Kinds.{has_key};

use crate::faults::TextFault;
use crate::kinds::{has_key, value_at};
use toml::{Table, Value};

/// The format of a file.
#[derive(Clone, Copy, Debug, PartialEq, Eq)]
pub enum Format {
    First,
    /// With the keys `tries` and `undo_tries` of a step.
    Second,
}

ghost use Rattle.saga_text.specs.Format.{format_of, is_top_key, is_step_key, passes, has_step_keys};

/// The format that a file names.
pub fn format_of(top: &Table) -> Result<Format, TextFault>
    ensures { result ≡ format_of (table_view top.now) }
{
    match value_at(top, "format") {
        Some(Value::Integer(1)) => Ok(Format::First),
        Some(Value::Integer(2)) => Ok(Format::Second),
        _ => Err(TextFault::BadFormat),
    }
}

fn is_top_key(key: &str) -> bool
    ensures { result ≡ is_top_key key.now }
{
    matches!(key, "format" | "name" | "step")
}

fn is_step_key(format: Format, key: &str) -> bool
    ensures { result ≡ is_step_key format key.now }
{
    match key {
        "name" | "needs" | "run" | "undo" | "skip" | "keep" => true,
        "tries" | "undo_tries" => format == Format::Second,
        _ => false,
    }
}

/// Whether all keys at the top are keys of the format.
pub fn top_keys_are_known(top: &Table) -> bool
    ensures { result ≡ list_all is_top_key (keys_of (table_view top.now)) }
{
    top.keys().all(|key| is_top_key(key.as_str()))
}

/// Whether all keys of a step's table are keys of the format.
fn step_keys_are_known(step: &Table, format: Format) -> bool
    ensures { result ≡ has_step_keys format (table_view step.now) }
{
    step.keys().all(|key| is_step_key(format, key.as_str()))
}

/// Whether all keys of an item are keys of the format. An item that is not a table passes.
fn item_keys_are_known(item: &Value, format: Format) -> bool
    ensures { result ≡ passes (has_step_keys format) (view item.now) }
{
    match item {
        Value::Table(step) => step_keys_are_known(step, format),
        _ => true,
    }
}

/// Whether all keys of each table in the list are keys of the format.
pub fn items_keys_are_known(items: &[Value], format: Format) -> bool
    ensures { result ≡ list_all (passes (has_step_keys format)) (map view items.now) }
{
    items.iter().all(|item| item_keys_are_known(item, format))
}

/// Whether the item has the key. An item that is not a table passes.
fn item_has_key(item: &Value, key: &str) -> bool
    ensures { result ≡ passes (has_key key.now) (view item.now) }
{
    match item {
        Value::Table(step) => has_key(step, key),
        _ => true,
    }
}

/// Whether each table in the list has the key.
pub fn items_have_key(items: &[Value], key: &str) -> bool
    ensures { result ≡ list_all (passes (has_key key.now)) (map view items.now) }
{
    items.iter().all(|item| item_has_key(item, key))
}
