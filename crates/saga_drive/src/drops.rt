//! Plans that were started and have not ended.
ghost use Rattle.std.specs.Prelude.{◌≡◌, ◌≢◌, ◌++◌, [], ℕ, List, IfOk, OnOk, string_bytes};
ghost use Rattle.saga_history.specs.declared.tasks.Phase.TheVariants as phase;
ghost use Rattle.saga_core.specs.Book.{Book};
ghost use Rattle.saga_core.specs.Tasks.{StandsAt};
ghost use Rattle.saga_logged.specs.BookLog.{IsBookLog};
ghost use Rattle.saga_drive.specs.Drops.{DropsPlans, NoneIsPlanned, next_of};
ghost use Rattle.saga_drive.specs.Replies.{lines_of, text_of};

use crate::replies::{Reply, line_of, push_reserved};
use saga_core::Book;
use saga_history::{Event, history_laws};
use std::alloc::{AllocError, Global};

/// Drops the plan of a saga if it was started and has not ended, and appends the log line of this event. If memory runs
/// out, the book is unchanged.
fn drop_plan(
    alloc: Global,
    book: &mut Book<'_>,
    saga: u32,
    lines: &mut String,
) -> Result<(), AllocError>
    ensures more { OnOk result ((start : Book)
        → DropsPlans start book.old (string_bytes lines.old)
        → DropsPlans start book.new (string_bytes lines.new)) }
    ensures others { OnOk result ((i : ℕ)
        → StandsAt book.new i phase.Planning
        → (i ≢ saga) × StandsAt book.old i phase.Planning) }
{
    let line = line_of(alloc, &Event::DropPlan(saga))?;
    lines.reserve(line.as_str().len())?;
    history_laws(book.shelf(), book.history());
    match book.drop_plan(saga) {
        Ok(()) => push_reserved(lines, line.as_str()),
        Err(_) => {}
    }
    Ok(())
}

/// Drops each plan that was started and has not ended. A restart uses it, because the process that made the plan no
/// longer runs and the plan must be made again. The reply has an empty text and the log lines of the dropped plans.
/// Takes time linear in the sagas. If memory runs out, some plans may already be dropped although no log lines are
/// returned.
pub fn drop_plans(alloc: Global, book: &mut Book<'_>) -> Result<Reply, AllocError>
    ensures drops { IfOk result (λ reply. DropsPlans book.old book.new (lines_of reply)) }
    ensures none { IfOk result (λ _. NoneIsPlanned book.new (next_of book.old)) }
    ensures silent { IfOk result (λ reply. text_of reply ≡ []) }
    ensures log { IfOk result (λ reply. (l : List ℕ)
        → IsBookLog book.old l → IsBookLog book.new (l ++ lines_of reply)) }
{
    let mut lines = String::new(alloc);
    for saga in 0..book.next_number() {
        drop_plan(alloc, book, saga, &mut lines)?;
    }
    // the history is legal
    let _history = book.history();
    Ok(Reply::Told {
        text: String::new(alloc),
        lines,
    })
}
