//! Several tasks that start one after the other.
ghost use Rattle.std.specs.Prelude.{◌≡◌, ◌≤◌, IfOk, OnErr, length};
ghost use Rattle.saga_drive.specs.Answers.{IsMet};
ghost use Rattle.saga_drive.specs.Many.{HasStartedAll, HasStartedFewer, IsUntold};
ghost use Rattle.saga_drive.specs.Replies.{last_tasks_front};
ghost use Rattle.saga_drive.specs.declared.requests.Request.TheVariants as request;

use crate::replies::Reply;
use crate::starts::start_next;
use crate::tellings::Telling;
use saga_core::Book;
use std::alloc::{AllocError, Global};

/// `FIRST` is the text before the tasks if more tasks may follow. `END` is the text after the tasks.
const FIRST: &str = "{\"tasks\":[";

const END: &str = "]}\n";

/// Returns the text before the tasks if no other task may start now.
fn last_front(settled: bool) -> &'static str
    ensures front { result.now ≡ last_tasks_front settled }
    ensures short { length result.now ≤ 27 }
{
    if settled {
        "{\"settled\":true,\"tasks\":["
    } else {
        "{\"settled\":false,\"tasks\":["
    }
}

/// Starts the next tasks, at most `most` of them, and returns whether it started `most` tasks. If it started fewer, no
/// other task may start. If memory runs out for a task, the tasks before it have already started.
fn start_many(
    alloc: Global,
    book: &mut Book<'_>,
    most: u16,
    telling: &mut Telling,
) -> Result<bool, AllocError>
    requires { IsUntold telling.old }
    ensures ok { IfOk result (λ all. HasStartedAll all book.old book.new telling.new most) }
    ensures err { OnErr result (HasStartedFewer book.old book.new telling.new most) }
{
    for count in 0..most {
        match start_next(alloc, book, telling) {
            Ok(true) => {}
            Ok(false) => return Ok(false),
            Err(AllocError) => return Err(AllocError),
        }
    }
    Ok(true)
}

/// Starts the next tasks, at most `most` of them. If memory runs out after some tasks have started, the reply lists
/// these tasks.
pub fn next_many(alloc: Global, book: &mut Book<'_>, most: u16) -> Result<Reply, AllocError>
    ensures ok { IfOk result (IsMet book.old book.new (request.NextMany most)) }
    ensures err { OnErr result (book.new ≡ book.old) }
{
    let mut telling = Telling::new(alloc)?;
    match start_many(alloc, book, most, &mut telling) {
        Ok(true) => Ok(telling.end(FIRST, END)),
        Ok(false) => {
            let settled = book.settled();
            Ok(telling.end(last_front(settled), END))
        }
        Err(AllocError) => {
            if !telling.apart {
                return Err(AllocError);
            }
            Ok(telling.end(FIRST, END))
        }
    }
}
