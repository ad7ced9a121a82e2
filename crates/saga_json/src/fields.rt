//! The value at a key of an object, by its kind. The fault is `MissingKey` if the key is missing, and `BadType` if the
//! value has another kind.
ghost use Rattle.std.specs.Prelude.{◌≡◌, map, option_map};
ghost use Rattle.serde_json.specs.Find.{get};
ghost use Rattle.serde_json.specs.View.{view};
ghost use Rattle.saga_json.specs.Reads.{Gives, each, seen};
ghost use Rattle.saga_json.specs.Fields as spec;

use crate::faults::JsonFault;
use serde_json::Value;
use std::alloc::Global;

/// The text at a key of an object, if there is one.
pub fn text_at<'a>(value: &'a Value, key: &str) -> Option<&'a str>
    ensures { option_map (λ t. t.now) result ≡ spec.text_at key.now (view value.entry.now) }
{
    match value.get(key) {
        Some(found) => found.as_str(),
        None => None,
    }
}

/// The value at a key of an object.
pub fn value_at<'a>(value: &'a Value, key: &str) -> Result<&'a Value, JsonFault>
    ensures { seen (λ v. view v.now) result ≡ spec.value_in (get key.now (view value.entry.now)) }
{
    match value.get(key) {
        Some(found) => Ok(found),
        None => Err(JsonFault::MissingKey),
    }
}

fn u16_of(value: &Value) -> Result<u16, JsonFault>
    ensures { result ≡ spec.u16_of (view value.now) }
{
    match value.as_u64() {
        Some(number) if number <= u16::MAX as u64 => Ok(number as u16),
        _ => Err(JsonFault::BadType),
    }
}

fn u32_of(value: &Value) -> Result<u32, JsonFault>
    ensures { result ≡ spec.u32_of (view value.now) }
{
    match value.as_u64() {
        Some(number) if number <= u32::MAX as u64 => Ok(number as u32),
        _ => Err(JsonFault::BadType),
    }
}

fn u64_of(value: &Value) -> Result<u64, JsonFault>
    ensures { result ≡ spec.u64_of (view value.now) }
{
    match value.as_u64() {
        Some(number) => Ok(number),
        None => Err(JsonFault::BadType),
    }
}

/// The whole number of 16 bits at a key.
pub fn u16_at(value: &Value, key: &str) -> Result<u16, JsonFault>
    ensures { result ≡ spec.at_key spec.u16_of key.now (view value.now) }
{
    u16_of(value_at(value, key)?)
}

/// The whole number of 32 bits at a key.
pub fn u32_at(value: &Value, key: &str) -> Result<u32, JsonFault>
    ensures { result ≡ spec.at_key spec.u32_of key.now (view value.now) }
{
    u32_of(value_at(value, key)?)
}

/// The whole number of 64 bits at a key.
pub fn u64_at(value: &Value, key: &str) -> Result<u64, JsonFault>
    ensures { result ≡ spec.at_key spec.u64_of key.now (view value.now) }
{
    u64_of(value_at(value, key)?)
}

fn items_of(value: &Value) -> Result<&[Value], JsonFault>
    ensures { seen (λ items. map view items.now) result ≡ spec.items_of (view value.entry.now) }
{
    match value {
        Value::Array(items) => Ok(items.as_slice()),
        _ => Err(JsonFault::BadType),
    }
}

/// The items of the list at a key.
pub fn items_at<'a>(value: &'a Value, key: &str) -> Result<&'a [Value], JsonFault>
    ensures { seen (λ items. map view items.now) result
        ≡ spec.at_key spec.items_of key.now (view value.entry.now) }
{
    items_of(value_at(value, key)?)
}

/// Each item as a whole number of 16 bits.
fn u16s_of(alloc: Global, items: &[Value]) -> Result<Vec<u16>, JsonFault>
    ensures { Gives (λ numbers. numbers.items) result (each spec.u16_of (map view items.now)) }
{
    let mut numbers = Vec::new(alloc);
    for item in items {
        numbers.push(u16_of(item)?)?;
    }
    Ok(numbers)
}

/// Each item as a whole number of 64 bits.
fn u64s_of(alloc: Global, items: &[Value]) -> Result<Vec<u64>, JsonFault>
    ensures { Gives (λ numbers. numbers.items) result (each spec.u64_of (map view items.now)) }
{
    let mut numbers = Vec::new(alloc);
    for item in items {
        numbers.push(u64_of(item)?)?;
    }
    Ok(numbers)
}

/// The whole numbers of 16 bits in the list at a key.
pub fn u16s_at(alloc: Global, value: &Value, key: &str) -> Result<Vec<u16>, JsonFault>
    ensures { Gives (λ numbers. numbers.items) result
        (spec.at_key (spec.list_of_each spec.u16_of) key.now (view value.now)) }
{
    u16s_of(alloc, items_at(value, key)?)
}

/// The whole numbers of 64 bits in the list at a key.
pub fn u64s_at(alloc: Global, value: &Value, key: &str) -> Result<Vec<u64>, JsonFault>
    ensures { Gives (λ numbers. numbers.items) result
        (spec.at_key (spec.list_of_each spec.u64_of) key.now (view value.now)) }
{
    u64s_of(alloc, items_at(value, key)?)
}
