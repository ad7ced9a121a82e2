//! The keys of an object.
ghost use Rattle.std.specs.Prelude.{◌≡◌, ◌||◌, map};
ghost use Rattle.std.specs.List.{list_all};
ghost use Rattle.serde_json.specs.View.{view, members_view};
ghost use Rattle.saga_json.specs.Trees.{member_keys};
ghost use Rattle.saga_json.specs.Keys as spec;

use crate::faults::JsonFault;
use serde_json::{Map, Value};

/// Whether a value is an object that has the key.
fn has_key(value: &Value, key: &str) -> bool
    ensures { result ≡ spec.has_key key.now (view value.now) }
{
    value.get(key).is_some()
}

fn is_among(keys: &[&str], key: &str) -> bool
    ensures { result ≡ spec.is_among (map (λ k. k.now) keys.now) key.now }
{
    keys.contains(&key)
}

fn has_each(must: &[&str], value: &Value) -> bool
    ensures { result ≡ spec.has_each (map (λ k. k.now) must.now) (view value.now) }
{
    must.iter().all(|key| has_key(value, key))
}

fn are_known(must: &[&str], may: &[&str], members: &Map<String, Value>) -> bool
    ensures { result
        ≡ list_all (spec.is_known (map (λ k. k.now) must.now) (map (λ k. k.now) may.now))
        (member_keys (members_view members.now.entries)) }
{
    members.keys().all(|key| is_among(must, key.as_str()) || is_among(may, key.as_str()))
}

fn has_only(must: &[&str], may: &[&str], value: &Value) -> bool
    ensures { result ≡ spec.has_only (map (λ k. k.now) must.now) (map (λ k. k.now) may.now)
        (view value.now) }
{
    match value {
        Value::Object(members) => are_known(must, may, members),
        _ => true,
    }
}

/// Checks that an object has each required key, and no key that is neither required nor optional. The fault is
/// `UnknownKey`, or if there is none, `MissingKey`.
#[tactic(auto, unfolding(crate::specs::Keys::keys_fit))]
pub fn check_keys(value: &Value, must: &[&str], may: &[&str]) -> Result<(), JsonFault>
    ensures { result ≡ spec.keys_fit (map (λ k. k.now) must.now) (map (λ k. k.now) may.now)
        (view value.now) }
{
    if !has_only(must, may, value) {
        return Err(JsonFault::UnknownKey);
    }
    if !has_each(must, value) {
        return Err(JsonFault::MissingKey);
    }
    Ok(())
}
