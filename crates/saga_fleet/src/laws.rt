//! What holds after every run of many nodes whose decisions are lines of a log.
ghost use Rattle.std.specs.Prelude.{◌≡◌, ◌↔◌, ◌⊎◌, ◌∷◌, ◌++◌, ℕ, Bool, true, false, List, [], take};
ghost use Rattle.saga_core.specs.Book.{Book};
ghost use Rattle.saga_fleet.specs.Fleet.{AreAllowed, Chunk, IsAllowed, IsDone, Log, Move, by_key, happens, nothing, rules, run, session};
ghost use Rattle.saga_fleet.specs.ByKey.{IsAnswerable, IsDirectlyAfter, IsKnown, KeepsOne};
ghost use Rattle.saga_fleet.specs.Fleet.Move.{Answers, Commits, Repeats, Takes_over, Tells};
ghost use Rattle.saga_fleet.specs.Needed.{AreAllButOne, Breaks, no_epoch_check, no_new_epoch, no_reading_again, no_server_check, no_waiting};
ghost use Rattle.saga_fleet.specs.Records.{IsAnswer};
ghost use Rattle.saga_fleet.specs.declared.answers.RecordAnswer.{RecordAnswer};
ghost use Rattle.saga_fleet.specs.declared.events.Event.{Event};
ghost use Rattle.saga_fleet.specs.Written.{IsWritten, text_of};
ghost use Rattle.saga_fleet.specs.Told.{Holds, HoldsUnlessCut, IsCurrent, IsLegalThroughout, MayCommitNext, NoneContradict};
ghost use Rattle.saga_logged.specs.BookLog.{IsBookLog};

use saga_logged::LoggedBook;
use saga_wal::Logged;

/// What was acknowledged survives. A run is any list of allowed moves. Nodes take a log over,
/// decide, commit, acknowledge, sleep, wake and crash at any moment. Answers are lost, commits come
/// late, and other servers take over.
pub fn told_survives_on_many_nodes<S: Logged>()
    // the log is one legal history, after each commit
    ensures legal { (synchronous : Bool) (moves : List Move) → AreAllowed (rules synchronous) (IsWritten S.is_log) nothing moves
        → IsLegalThroughout (IsWritten S.is_log) (run (rules synchronous) nothing moves).chunks }
    // a session that commits knows the whole log: sessions decide one at a time, each on all
    // earlier decisions
    ensures one_at_a_time { (synchronous : Bool) (moves : List Move) (k : ℕ) → AreAllowed (rules synchronous) (IsWritten S.is_log) nothing moves
        → IsAllowed (rules synchronous) (IsWritten S.is_log) (run (rules synchronous) nothing moves) (Commits k)
        → (session (run (rules synchronous) nothing moves) k).known ≡ (run (rules synchronous) nothing moves).chunks }
    // a session under the epoch of the log that reads it again finds what it knows
    ensures rereads { (synchronous : Bool) (moves : List Move) (k : ℕ) → AreAllowed (rules synchronous) (IsWritten S.is_log) nothing moves
        → IsCurrent (run (rules synchronous) nothing moves) k
        → (session (run (rules synchronous) nothing moves) k).known ≡ (run (rules synchronous) nothing moves).chunks }
    // a session is current exactly if the commit of a chunk that it sends now may be executed
    ensures current { (synchronous : Bool) (w : Log) (k : ℕ) (chunk : Chunk)
        → IsCurrent w k ↔ MayCommitNext (rules synchronous) (IsWritten S.is_log) w k chunk }
    // with a synchronous standby, the database keeps all that an acknowledged text rests on
    ensures told { (moves : List Move) → AreAllowed (rules true) (IsWritten S.is_log) nothing moves → Holds (run (rules true) nothing moves) }
    // with a synchronous standby, no two nodes contradict each other
    ensures agree { (moves : List Move) → AreAllowed (rules true) (IsWritten S.is_log) nothing moves
        → NoneContradict (run (rules true) nothing moves).told }
    // with an asynchronous standby, the database keeps all except what a server lacked that took
    // over later
    ensures told_but { (moves : List Move) → AreAllowed (rules false) (IsWritten S.is_log) nothing moves
        → HoldsUnlessCut (run (rules false) nothing moves) }
{}

/// The same for a book. What was acknowledged of it survives on many nodes. After each commit, the
/// log is that of a book, so it is read as a legal history.
pub fn book_survives_on_many_nodes()
    ensures told { (moves : List Move)
        → AreAllowed (rules true) (IsWritten ⟦<LoggedBook<'static> as Logged>⟧.is_log) nothing moves
        → Holds (run (rules true) nothing moves) }
    ensures told_but { (moves : List Move)
        → AreAllowed (rules false) (IsWritten ⟦<LoggedBook<'static> as Logged>⟧.is_log) nothing moves
        → HoldsUnlessCut (run (rules false) nothing moves) }
    ensures legal { (synchronous : Bool) (moves : List Move) (n : ℕ)
        → AreAllowed (rules synchronous) (IsWritten ⟦<LoggedBook<'static> as Logged>⟧.is_log) nothing moves
        → (take n (run (rules synchronous) nothing moves).chunks ≡ [])
        ⊎ ((book : Book) × IsBookLog book (text_of (take n (run (rules synchronous) nothing moves).chunks))) }
{
    told_survives_on_many_nodes::<LoggedBook<'static>>()
}

/// Each rule is needed: without it, an allowed run loses something that was acknowledged.
pub fn each_rule_is_needed()
    ensures epoch { Breaks no_epoch_check Holds }
    ensures takeover { Breaks no_new_epoch Holds }
    ensures answer { Breaks no_waiting Holds }
    ensures again { Breaks no_reading_again Holds }
    // lost although no failover cut the log since the acknowledgement: so epochs alone do not
    // suffice with an asynchronous standby
    ensures server { Breaks no_server_check HoldsUnlessCut }
    // with an asynchronous standby, something that was acknowledged may be lost
    ensures synchronous { Breaks (rules false) Holds }
    // each of the others leaves out one rule, and no other
    ensures alone { AreAllButOne }
{}

/// The primary key of the lines alone suffices if each server has it. A commit that writes after
/// what its session knows is refused if a line is already there. So no epoch must be compared, and
/// a commit without an answer may be repeated. Epochs keep out what has no lines.
pub fn the_key_alone_does<S: Logged>()
    ensures legal { (synchronous : Bool) (moves : List Move) → AreAllowed (by_key synchronous) (IsWritten S.is_log) nothing moves
        → IsLegalThroughout (IsWritten S.is_log) (run (by_key synchronous) nothing moves).chunks }
    ensures told { (moves : List Move) → AreAllowed (by_key true) (IsWritten S.is_log) nothing moves → Holds (run (by_key true) nothing moves) }
    ensures agree { (moves : List Move) → AreAllowed (by_key true) (IsWritten S.is_log) nothing moves
        → NoneContradict (run (by_key true) nothing moves).told }
    ensures told_but { (moves : List Move) → AreAllowed (by_key false) (IsWritten S.is_log) nothing moves
        → HoldsUnlessCut (run (by_key false) nothing moves) }
{}

/// What the key alone allows. No move compares an epoch or raises it. A session may repeat a commit whose answer it does
/// not know: in a run that does so, the repeated commit is refused, and the log has the chunk once.
pub fn the_key_compares_no_epoch<S: Logged>()
    ensures commits { (synchronous : Bool) (w : Log) (k : ℕ) → IsAllowed (by_key synchronous) (IsWritten S.is_log) w (Commits k) ↔ IsDirectlyAfter w k }
    ensures repeats { (synchronous : Bool) (w : Log) (k : ℕ) → IsAllowed (by_key synchronous) (IsWritten S.is_log) w (Repeats k) ↔ IsDone (session w k).stage }
    ensures answers { (synchronous : Bool) (w : Log) (k : ℕ) → IsAllowed (by_key synchronous) (IsWritten S.is_log) w (Answers k) ↔ IsAnswerable synchronous w k }
    ensures acknowledges { (synchronous : Bool) (w : Log) (k n : ℕ) (text : List ℕ)
        → IsAllowed (by_key synchronous) (IsWritten S.is_log) w (Tells k n text) ↔ IsKnown w k n }
    ensures takeover { (synchronous : Bool) (w : Log) → (happens (by_key synchronous) w Takes_over).epoch ≡ w.epoch }
    ensures repeated { (synchronous : Bool) (chunk : Chunk) → KeepsOne (by_key synchronous) chunk }
{}

/// A session may send the lines that a state adds if the state was made of what the session knows.
/// The engine process does this.
pub fn answers_may_be_sent<S: Logged>()
    ensures { (old new : S) (known : List Chunk) (lines : Chunk) → S.is_log old (text_of known)
        → ((l : Chunk) → S.is_log old l → S.is_log new (l ++ lines)) → IsWritten S.is_log (known ++ lines ∷ []) }
{}

/// A record has at most one answer: one event is the first that is not allowed, and one reason is
/// the first whose condition fails.
#[tactic(auto, using(crate::proofs::OneAnswer::one_answer))]
pub fn a_record_has_one_answer()
    ensures one { (synchronous : Bool) (events : List Event) (x y : RecordAnswer) → IsAnswer synchronous events x → IsAnswer synchronous events y → x ≡ y }
{}
