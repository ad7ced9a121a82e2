//! Reads a definition file.
ghost use Rattle.std.specs.Prelude.{◌≡◌, ◌↔◌, ◌<◌, ℕ, List, length, IsTrue, MatchResult, IfOk, IfErr};
ghost use Rattle.toml.specs.Data.{Members};
ghost use Rattle.toml.specs.View.{table_view};
ghost use Rattle.saga_def.specs.Sound.{IsSound};
ghost use Rattle.saga_def.specs.Contents.{Contents};
ghost use Rattle.saga_text.specs.Trees.{IsTextOf};
ghost use Rattle.saga_text.specs.Format.{contents_from, contents_of};
ghost use Rattle.saga_text.specs.Drafts.{written};
ghost use Rattle.saga_text.specs.Reads.{Holds, Reads, IsTreeFault, IsFirstCarried};

use crate::documents::read_draft;
use crate::drafts::Draft;
use crate::faults::TextFault;
use crate::limits::MAX_DEFINITION;
use crate::numbers::number_needs;
use saga_def::{DefFault, Definition, MAX_STEPS};
use std::alloc::Global;
use toml::Table;

/// Parses a text into a tree.
fn read_tree(alloc: Global, bytes: &[u8]) -> Result<Table, TextFault>
    ensures { MatchResult result (λ top. IsTextOf (table_view top) bytes.now)
        (IsTreeFault bytes.now) }
{
    match toml::table_from_slice(alloc, bytes) {
        Ok(top) => Ok(top),
        Err(error) => {
            if error.is_memory() {
                Err(TextFault::OutOfMemory)
            } else {
                Err(TextFault::NotToml)
            }
        }
    }
}

/// Builds the definition of a draft. Names are resolved to numbers only if the number of steps is within the limit.
fn build(alloc: Global, draft: Draft<'_>) -> Result<Definition, TextFault>
    ensures built { IfOk result (λ d. (d ≡ contents_from (written draft.entry)) × IsSound d) }
    ensures fault { IfErr result (IsFirstCarried (contents_from (written draft.entry))) }
    ensures accepts { IsSound (contents_from (written draft.entry))
        → IfErr result (λ fault. fault ≡ TextFault.OutOfMemory) }
{
    if draft.steps.len() > MAX_STEPS {
        return Err(TextFault::Def(DefFault::TooManySteps));
    }
    let Draft {
        name,
        steps,
        needs: names,
    } = draft;
    let needs = number_needs(alloc, &steps, &names)?;
    Ok(Definition::build(alloc, name, steps, needs)?)
}

/// Whether a file has too many bytes.
fn is_too_long(bytes: &[u8]) -> bool
    ensures { IsTrue result ↔ (MAX_DEFINITION < length bytes.now) }
{
    bytes.len() > MAX_DEFINITION
}

/// Reads a definition file, of format 1 or 2. Takes time linear in the text, in addition to the time of `toml` and
/// [`Definition::build`].
pub fn read_definition(alloc: Global, bytes: &[u8]) -> Result<Definition, TextFault>
    ensures reads { Reads bytes.now result }
    ensures accepts { (c : Contents) → Holds bytes.now (Ok c) → IsSound c
        → IfErr result (λ fault. fault ≡ TextFault.OutOfMemory) }
{
    if is_too_long(bytes) {
        return Err(TextFault::TooLong);
    }
    let top = read_tree(alloc, bytes)?;
    let draft = read_draft(alloc, &top)?;
    build(alloc, draft)
}
