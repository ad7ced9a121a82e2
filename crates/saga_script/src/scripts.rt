//! Scripts, and look-ups in them.
ghost use Rattle.std.specs.Prelude.{◌≡◌, ◌<◌, Bool, ℕ, Ok, OnOk, IfOk, IfErr, IfSome, if◌then◌else◌};
ghost use Rattle.saga_script.specs.Endings.{outcome_of, asks_abort};
ghost use Rattle.saga_script.specs.Statements.{stated};
ghost use Rattle.saga_script.specs.Table.{key_of};

use crate::endings::{Ending, PLACES, place_of, with_ending};
use crate::faults::ScriptFault;
use crate::limits::MAX_SCRIPT;
use crate::statements::{Statement, statement_of};
use saga_bytes::split_line;
use saga_history::Outcome;
use std::alloc::{AllocError, Global};
use std::collections::HashMap;

/// How actions and compensations end.
#[derive(Drop)]
pub struct Script {
    /// The endings of all attempts, by a step's name and then by saga and action.
    table: HashMap<String, HashMap<u64, [Ending; PLACES]>>,
}

/// The table key for an action of a saga.
fn key_of(saga: u32, is_undo: bool) -> u64
    ensures { result ≡ key_of saga is_undo }
{
    saga as u64 * 2 + is_undo as u64
}

impl Script {
    ghost use Rattle.saga_script.specs.Questions.{Question, question, names};
    ghost use Rattle.saga_script.specs.Table.{ending_in, ending_told};
    ghost use Rattle.saga_script.specs.Scripts.{ReadsScript};
    ghost use Rattle.saga_script.specs.Progress.{told_from, told_by, Fails};

    /// Adds one more statement.
    #[tactic(auto, unfolding(crate::specs::Table::ending_told))]
    fn add(&mut self, alloc: Global, statement: &Statement<'_>) -> Result<(), AllocError>
        requires { IfSome statement.now.attempt (λ k. (0 < k) × (k < 10)) }
        ensures { OnOk result ((q : Question) → ending_told self.new.table q
            ≡ told_by q (ending_told self.old.table q) (stated statement.now)) }
    {
        let key = key_of(statement.saga, statement.is_undo);
        let mut rows = match self.table.remove(statement.name) {
            Some(rows) => rows,
            None => HashMap::new(alloc),
        };
        let row = match rows.get(&key) {
            Some(row) => *row,
            None => [Ending::Done; PLACES],
        };
        let row = with_ending(row, statement.attempt, statement.ending);
        rows.insert(key, row)?;
        let name = String::from_str(alloc, statement.name)?;
        self.table.insert(name, rows)?;
        Ok(())
    }

    /// The table for the lines of a text, or the first line that does not have the format.
    fn of_lines(alloc: Global, bytes: &[u8]) -> Result<Script, ScriptFault>
        ensures ok { IfOk result (λ s. (q : Question) → told_from q bytes.now
            ≡ Ok (ending_told s.table q)) }
        ensures err { IfErr result (λ fault. (q : Question) → Fails fault (told_from q bytes.now)) }
    {
        let mut script = Script {
            table: HashMap::new(alloc),
        };
        let mut left = bytes;
        let mut number = 0usize;
        while let Some((line, rest)) = split_line(left) {
            number += 1;
            if !line.is_empty() {
                match statement_of(alloc, line)? {
                    Some(statement) => script.add(alloc, &statement)?,
                    None => return Err(ScriptFault::BadLine(number)),
                }
            }
            left = rest;
        }
        Ok(script)
    }

    /// Reads a script, in time and memory linear in the text.
    pub fn read(alloc: Global, bytes: &[u8]) -> Result<Script, ScriptFault>
        ensures { ReadsScript bytes.now result }
    {
        if bytes.len() > MAX_SCRIPT {
            return Err(ScriptFault::TooLong);
        }
        Script::of_lines(alloc, bytes)
    }

    #[tactic(auto, unfolding(crate::specs::Table::ending_told))]
    fn ending(&self, saga: u32, name: &str, is_undo: bool, attempt: u64) -> Ending
        ensures { result ≡ ending_told self.now.table (question saga name.now is_undo attempt) }
    {
        match self.table.get(name) {
            None => Ending::Done,
            Some(rows) => match rows.get(&key_of(saga, is_undo)) {
                None => Ending::Done,
                Some(row) => row[place_of(attempt)],
            },
        }
    }

    /// The outcome of an attempt, counted from 1, of a step's action or compensation. The last line that names saga,
    /// step and action, and this attempt or none, states it. Without such a line the outcome is done. Takes no memory.
    pub fn outcome(&self, saga: u32, name: &str, is_undo: bool, attempt: u64) -> Outcome
        ensures { result
            ≡ outcome_of (ending_in self.now (question saga name.now is_undo attempt)) }
    {
        self.ending(saga, name, is_undo, attempt).outcome()
    }

    /// Whether this line requests an abort of the saga. Takes no memory.
    pub fn asks_abort(&self, saga: u32, name: &str, is_undo: bool, attempt: u64) -> bool
        ensures { result
            ≡ asks_abort (ending_in self.now (question saga name.now is_undo attempt)) }
    {
        self.ending(saga, name, is_undo, attempt).asks_abort()
    }
}
