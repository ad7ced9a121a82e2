//! The texts of tasks in a reply. They are built before the tasks start, with reserved capacity for the phases, which
//! are known only afterwards.
ghost use Rattle.std.specs.Prelude.{◌≡◌, ◌+◌, ◌≤◌, ◌++◌, [], IfOk, OnOk, false, length, string_bytes, string_capacity, string_len};

use crate::replies::{Reply, push_reserved};
use std::alloc::{AllocError, Global};

/// `WORD` is the maximum length of the word for a phase with a comma. `FRAME` is the maximum length of the texts before
/// and after the tasks of a reply.
const WORD: usize = 9;

const FRAME: usize = 32;

/// The text of a task in a reply, in two parts with the word for a phase between them, and the log lines of the task.
#[derive(Drop)]
pub struct Item {
    pub front: String,
    pub back: String,
    pub lines: String,
}

/// The text of the started tasks and their log lines. `text` has reserved capacity for the end of the reply.
#[derive(Drop)]
pub struct Telling {
    pub text: String,
    pub lines: String,
    /// Whether the next task needs a comma before it.
    pub apart: bool,
    ghost room: { string_len text + 32 ≤ string_capacity text },
}

impl Telling {
    ghost use Rattle.saga_drive.specs.Replies.{lines_of, text_of};
    ghost use Rattle.saga_drive.specs.Tellings.{HasRoom, TellsMore, TellsSame, told_of};

    /// Makes an empty text.
    pub fn new(alloc: Global) -> Result<Telling, AllocError>
        ensures text { IfOk result (λ telling. string_bytes telling.text ≡ []) }
        ensures lines { IfOk result (λ telling. string_bytes telling.lines ≡ []) }
        ensures apart { IfOk result (λ telling. telling.apart ≡ false) }
    {
        let mut text = String::new(alloc);
        text.reserve(FRAME)?;
        Ok(Telling {
            text,
            lines: String::new(alloc),
            apart: false,
        })
    }

    /// Reserves the capacity for a task.
    pub fn make_room(&mut self, item: &Item) -> Result<(), AllocError>
        ensures same { TellsSame self.old self.new }
        ensures ok { OnOk result (HasRoom self.new item.now) }
    {
        let back = item.back.as_str().len() + WORD + FRAME;
        let Some(need) = item.front.as_str().len().checked_add(back) else {
            return Err(AllocError);
        };
        self.text.reserve(need)?;
        self.lines.reserve(item.lines.as_str().len())?;
        Ok(())
    }

    /// Appends a task that has started, with the word for a phase. `make_room` has reserved the capacity.
    pub fn add(&mut self, item: &Item, word: &str)
        requires room { HasRoom self.old item.now }
        requires short { length word.now ≤ 8 }
        ensures { TellsMore self.old self.new (told_of item.now word.now)
            (string_bytes item.now.lines) }
    {
        if self.apart {
            push_reserved(&mut self.text, ",");
        }
        push_reserved(&mut self.text, item.front.as_str());
        push_reserved(&mut self.text, word);
        push_reserved(&mut self.text, item.back.as_str());
        push_reserved(&mut self.lines, item.lines.as_str());
        self.apart = true;
    }

    /// Completes the reply with the texts before and after the tasks.
    pub fn end(self, front: &str, back: &str) -> Reply
        requires { length front.now + length back.now ≤ 32 }
        ensures text { text_of result ≡ front.now ++ string_bytes self.text ++ back.now }
        ensures lines { lines_of result ≡ string_bytes self.lines }
    {
        let Telling {
            mut text,
            lines,
            ..
        } = self;
        push_reserved(&mut text, back);
        if text.insert_str(0, front).is_err() {
            unreachable!()
        }
        Reply::Told { text, lines }
    }
}
