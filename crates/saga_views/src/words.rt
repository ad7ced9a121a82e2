//! Words and lists of texts.
ghost use Rattle.std.specs.Prelude.{◌≡◌, IfOk, codes, map, string_bytes};
ghost use Rattle.saga_views.specs.Words as spec;

use saga_history::Kind;
use std::alloc::{AllocError, Global};

/// Returns the word for an action or a compensation.
pub fn kind_word(kind: Kind) -> &'static str
    ensures { result.now ≡ spec.kind_word kind }
{
    match kind {
        Kind::Run => "run",
        Kind::Undo => "undo",
    }
}

/// Returns a truth value in JSON.
pub fn truth_text(truth: bool) -> &'static str
    ensures { result.now ≡ spec.truth_text truth }
{
    if truth { "true" } else { "false" }
}

/// Returns texts with commas between them.
pub fn listed(alloc: Global, texts: &[String]) -> Result<String, AllocError>
    ensures { IfOk result
        (λ text. string_bytes text ≡ spec.listed (codes ",") (map string_bytes texts.now)) }
{
    texts.join(alloc, ",")
}

/// Returns words with a separator between them.
pub fn listed_words(alloc: Global, words: &[&'static str]) -> Result<String, AllocError>
    ensures { IfOk result (λ text. string_bytes text
        ≡ spec.listed (codes "\",\"") (map (λ w. w.now) words.now)) }
{
    words.join(alloc, "\",\"")
}
