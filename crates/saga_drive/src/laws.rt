//! Theorems about answers and restarts. The functions do nothing; their contracts state the theorems.
ghost use Rattle.std.specs.Prelude.{ℕ, List};
ghost use Rattle.saga_def.specs.Contents.{Contents};
ghost use Rattle.saga_case.specs.Situation.{Situation};
ghost use Rattle.saga_case.specs.declared.answers.Answer.{Answer};
ghost use Rattle.saga_core.specs.Book.{Book};
ghost use Rattle.saga_drive.specs.declared.replies.Reply.{Reply};
ghost use Rattle.saga_drive.specs.Laws.{HasOneRestart, HasOneText, IsNotRefused, KeepsLegal, KeepsRoom, PlanFits};

/// A log has at most one restart. If it has one, the only possible refusal is lack of memory.
pub fn restart_laws()
    ensures one { (shelf : List Contents) (log : List ℕ) → HasOneRestart shelf log }
    ensures alone { (shelf : List Contents) (log : List ℕ) → IsNotRefused shelf log }
{}

/// An answer keeps a legal history legal, and it keeps enough free space in the log for all lines that may still be
/// written. The lines of a plan never exceed the space that is reserved for a plan, for every case. If an answer adds
/// no event and memory does not run out, the text of the reply is unique.
pub fn answer_laws()
    ensures legal { (old new : Book) (room : ℕ) (line : List ℕ) (reply : Reply) → KeepsLegal old new room line reply }
    ensures plans { (c : Situation) (saga : ℕ) (a : Answer) → PlanFits c saga a }
    ensures keeps { (old new : Book) (room : ℕ) (line : List ℕ) (reply : Reply) → KeepsRoom old new room line reply }
    ensures one_text { (book : Book) (room : ℕ) (line : List ℕ) → HasOneText book room line }
{}
