//! Laws of the reading of texts.
ghost use Rattle.std.specs.Prelude.{ℕ, List};
ghost use Rattle.saga_def.specs.Contents.{Contents};
ghost use Rattle.saga_cert.specs.Laws.{HasOneAnswer, HasOneCase};

/// Has an empty body: its contract is the law. Except for lack of memory, reading a text as a case of a definition has
/// one result, a case or a fault. Reading it as an answer has one result, an answer or a fault.
#[tactic(auto, using(crate::proofs::LawLemmas::has_one_answer, crate::proofs::LawLemmas::has_one_case))]
pub fn reading_laws()
    ensures cases { (definition : Contents) (text : List ℕ) → HasOneCase definition text }
    ensures answers { (text : List ℕ) → HasOneAnswer text }
{}
