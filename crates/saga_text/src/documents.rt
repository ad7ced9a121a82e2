//! Reads the contents of a whole file.
ghost use Rattle.std.specs.Prelude.{◌≡◌, map};
ghost use Rattle.toml.specs.View.{view, table_view};
ghost use Rattle.saga_text.specs.Reads.{Gives};
ghost use Rattle.saga_text.specs.Format.{step_items, has_known_keys, has_names, kinds_of, written_of};
ghost use Rattle.saga_text.specs.Drafts.{written};

use crate::drafts::Draft;
use crate::faults::TextFault;
use crate::keys::{Format, format_of, items_have_key, items_keys_are_known, top_keys_are_known};
use crate::kinds::{has_key, list_at, name_at};
use crate::steps::{needs_of_each, steps_of};
use std::alloc::Global;
use toml::{Table, Value};

/// Reads all values by their kinds: the draft of a file whose keys are known and whose names are present.
#[tactic(auto, unfolding(crate::specs::Format::kinds_of))]
fn kinds_of<'a>(alloc: Global, top: &'a Table) -> Result<Draft<'a>, TextFault>
    ensures { Gives written result (kinds_of (table_view top.entry.now)) }
{
    let name = name_at(alloc, top, "name")?;
    let items = list_at(top, "step")?;
    let steps = steps_of(alloc, items)?;
    let needs = needs_of_each(alloc, items)?;
    Ok(Draft { name, steps, needs })
}

/// The items of the list `step`, or none if it is not a list.
fn step_items(top: &Table) -> &[Value]
    ensures { map view result.now ≡ step_items (table_view top.entry.now) }
{
    list_at(top, "step").unwrap_or(&[])
}

/// Whether all keys of the file are keys of the format.
#[tactic(auto, unfolding(crate::specs::Format::has_known_keys))]
fn has_known_keys(top: &Table, format: Format) -> bool
    ensures { result ≡ has_known_keys format (table_view top.now) }
{
    top_keys_are_known(top) && items_keys_are_known(step_items(top), format)
}

/// Whether each name is present.
#[tactic(auto, unfolding(crate::specs::Format::has_names))]
fn has_names(top: &Table) -> bool
    ensures { result ≡ has_names (table_view top.now) }
{
    has_key(top, "name") && items_have_key(step_items(top), "name")
}

/// Reads the draft of a file.
pub fn read_draft<'a>(alloc: Global, top: &'a Table) -> Result<Draft<'a>, TextFault>
    ensures { Gives written result (written_of (table_view top.entry.now)) }
{
    let format = format_of(top)?;
    if !has_known_keys(top, format) {
        return Err(TextFault::UnknownKey);
    }
    if !has_names(top) {
        return Err(TextFault::MissingKey);
    }
    kinds_of(alloc, top)
}
