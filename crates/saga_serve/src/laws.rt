//! Theorems about a shelf that becomes longer. The function does nothing; its contract states the theorems.
ghost use Rattle.std.specs.Prelude.{◌≡◌, ◌∷◌, ◌++◌, [], ℕ, List, Ok};
ghost use Rattle.saga_def.specs.Contents.{Contents};
ghost use Rattle.saga_history.specs.Rules.{IsLegal};
ghost use Rattle.saga_history.specs.declared.events.Event.{Event};
ghost use Rattle.saga_core.specs.Book.{Book};
ghost use Rattle.saga_log.specs.Logs.{log_of};
ghost use Rattle.saga_logged.specs.BookLog.{IsBookLog};
ghost use Rattle.saga_serve.specs.Conversations.{texts_of};
ghost use Rattle.saga_serve.specs.Rests.{Covers, EachRests, Origin, RestsOn};
ghost use Rattle.saga_serve.specs.Shelves.{longer};

use saga_logged::history_survives;

/// A history that is legal over a shelf is legal over a longer shelf. The log of a book is also its log over a longer
/// shelf, because openings refer to definitions by index.
pub fn shelf_laws()
    ensures legal { (shelf more : List Contents) (history : List Event) → IsLegal shelf history → IsLegal (shelf ++ more) history }
    ensures log { (book : Book) (put : Contents) (text : List ℕ) → IsBookLog book text → IsBookLog (longer book put) text }
{}

/// What it means that replies rest on logs. Of each text that was written, together with all texts before it: the log on
/// which it rests is read back as the history of the book that has answered them.
pub fn rests_laws()
    ensures each { (origin : Origin) (earlier later : List (List ℕ × List ℕ)) (text log : List ℕ)
        → EachRests (RestsOn origin) [] (earlier ++ (text, log) ∷ later) → RestsOn origin (texts_of earlier ++ text) log }
    ensures history { (origin : Origin) (written log : List ℕ) → RestsOn origin written log
        → (book : Book) × Covers origin written book × (log_of log ≡ Ok book.history) }
{
    history_survives()
}
