//! A shelf that grows: replies to requests that add a definition.
ghost use Rattle.std.specs.Prelude.{◌≡◌, ◌≢◌, ◌⊎◌, [], IfErr, IfOk, IfSome, string_bytes, true};
ghost use Rattle.saga_core.specs.Book.{Book};
ghost use Rattle.saga_drive.specs.Answers.{KeepsShelf};
ghost use Rattle.saga_drive.specs.Replies.{fault_text, lines_of, memory_word, text_of};
ghost use Rattle.saga_serve.specs.Conversations.{Does, IsAsked};
ghost use Rattle.saga_serve.specs.Logs.{LogGoesOn};
ghost use Rattle.saga_serve.specs.Shelves.{IsUnwelcome, IsWelcome, place_fault_text, place_text};
ghost use Rattle.saga_text.specs.Faults.{word_of};
ghost use Rattle.saga_text.specs.declared.faults.TextFault.TheVariants as cause;

use saga_core::Book;
use saga_def::{Definition, Text};
use saga_drive::{Reply, Request, Response, answer, read_request, respond};
use saga_text::{TextFault, read_definition};
use saga_texts::MAX_LONG_SHELF;
use std::alloc::{AllocError, Global};

/// Returns a reply that adds nothing to the log.
fn told(alloc: Global, text: String) -> Reply
    ensures text { text_of result ≡ string_bytes text }
    ensures lines { lines_of result ≡ [] }
{
    Reply::Told {
        text,
        lines: String::new(alloc),
    }
}

/// Returns the reply with the index of an added definition.
pub fn reply_of_place(alloc: Global, place: usize) -> Result<Reply, AllocError>
    ensures text { IfOk result (λ reply. text_of reply ≡ place_text place) }
    ensures lines { IfOk result (λ reply. lines_of reply ≡ []) }
{
    let text = format!(in alloc; "{{\"def\":{place}}}\n")?;
    Ok(told(alloc, text))
}

/// Returns the reply with the fault of the definition for this index.
fn reply_of_fault(alloc: Global, place: usize, word: &str) -> Result<Reply, AllocError>
    ensures text { IfOk result (λ reply. text_of reply ≡ place_fault_text place word.now) }
    ensures lines { IfOk result (λ reply. lines_of reply ≡ []) }
{
    let text = format!(in alloc; "{{\"def\":{place},\"fault\":\"{word}\"}}\n")?;
    Ok(told(alloc, text))
}

/// Returns the reply for lack of memory.
fn out_of_memory() -> Reply
    ensures text { text_of result ≡ fault_text memory_word }
    ensures lines { lines_of result ≡ [] }
{
    Reply::Refusal("{\"fault\":\"out-of-memory\"}\n")
}

/// Returns the reply to a definition that has a fault.
fn reply_to_fault(alloc: Global, place: usize, why: TextFault) -> Reply
    ensures said { (text_of result ≡ fault_text memory_word)
        ⊎ ((why ≢ cause.OutOfMemory) × (text_of result ≡ place_fault_text place (word_of why))) }
    ensures lines { lines_of result ≡ [] }
{
    match why {
        TextFault::OutOfMemory => out_of_memory(),
        why => match reply_of_fault(alloc, place, why.word()) {
            Ok(reply) => reply,
            Err(AllocError) => out_of_memory(),
        },
    }
}

/// Returns the definition of a text if the shelf of a book is not full, or the reply that says why the definition is
/// not added.
fn definition_of(alloc: Global, book: &Book<'_>, text: &Text) -> Result<Definition, Reply>
    ensures welcome { IfOk result (λ put. IsWelcome book.now text.now put) }
    ensures unwelcome { IfErr result (λ reply. IsUnwelcome book.now text.now (text_of reply)) }
    ensures silent { IfErr result (λ reply. lines_of reply ≡ []) }
{
    let place = book.shelf().len();
    if place >= MAX_LONG_SHELF {
        return Err(Reply::Refusal("{\"refused\":\"full\"}\n"));
    }
    match read_definition(alloc, text.as_str().as_bytes()) {
        Ok(definition) => Ok(definition),
        Err(why) => Err(reply_to_fault(alloc, place, why)),
    }
}

/// Returns the definition that a line adds to a shelf, if the line is such a request and the definition can be added.
pub fn welcome_of(alloc: Global, shelf: &[Definition], line: &[u8]) -> Option<Definition>
    ensures { IfSome result (λ put. (book : Book) → book.shelf ≡ shelf.now → IsAsked true book line.now put) }
{
    let Ok(request) = read_request(alloc, line) else {
        return None;
    };
    let Request::Define(text) = request else {
        return None;
    };
    if shelf.len() >= MAX_LONG_SHELF {
        return None;
    }
    match read_definition(alloc, text.as_str().as_bytes()) {
        Ok(definition) => Some(definition),
        Err(_) => None,
    }
}

/// Executes the request of a line and returns its reply. If log lines are printed and the line adds a definition that
/// can be added, the function returns the definition instead and changes nothing.
pub fn meet_line(
    alloc: Global,
    shows: bool,
    book: &mut Book<'_>,
    room: u64,
    line: &[u8],
) -> Result<Definition, Reply>
    ensures asked { IfOk result (IsAsked shows book.old line.now) }
    ensures same { IfOk result (λ _. book.new ≡ book.old) }
    ensures shelf { KeepsShelf book.old book.new }
    ensures replied { IfErr result (Does shows book.old book.new room line.now) }
    ensures log { IfErr result (λ reply. LogGoesOn book.old book.new (lines_of reply)) }
{
    if !shows {
        return Err(answer(alloc, book, room, line));
    }
    match respond(alloc, book, room, line) {
        Response::Reply(reply) => Err(reply),
        Response::Define(text) => definition_of(alloc, book, &text),
    }
}
