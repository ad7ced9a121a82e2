//! The commands of the program for texts.
ghost use Rattle.std.specs.Prelude.{◌<◌, ◌≤◌, IfOk, map};
ghost use Rattle.saga_texts.specs.Texts.{IsCheckOutput, IsDrawOutput, IsPlanOutput};
ghost use Rattle.saga_texts.specs.Audits.{IsAuditOutput};
ghost use Rattle.saga_texts.specs.Conclusions.{beside};
ghost use Rattle.saga_texts.specs.Runs.{IsRunOutput};

use crate::audits::{audit_conclusion, audit_conclusion_alone, output_of_audit};
use crate::conclusions::{Question, conclusion_of};
use crate::drawings::{Scene, drawing_of};
use crate::outputs::{Output, output_of};
use crate::runs::{RunOutput, output_of_run, run_conclusion};
use std::alloc::{AllocError, Global};
use std::sync::Wait;
use std::thread::Threads;

/// Verifies an answer to a case of a definition. The output is `least N` if the plan has the minimum cost `N`,
/// `blocked` if no set of steps is allowed, and `no FAULT` if the answer is not right. A fault of a text goes to
/// standard error.
pub fn check_text(
    alloc: Global,
    definition: &[u8],
    case: &[u8],
    answer: &[u8],
) -> Result<Output, AllocError>
    ensures { IfOk result (IsCheckOutput definition.now case.now answer.now) }
{
    let conclusion = conclusion_of(alloc, definition, case, Question::Check(answer))?;
    output_of(alloc, &conclusion)
}

/// Makes an answer to a case of a definition. The output is the text of a right answer, with status 0 for a plan and 1
/// for a chain. A fault of a text goes to standard error. It is proved that `check_text` accepts the answer.
pub fn plan_text(alloc: Global, definition: &[u8], case: &[u8]) -> Result<Output, AllocError>
    ensures { IfOk result (IsPlanOutput definition.now case.now) }
{
    let conclusion = conclusion_of(alloc, definition, case, Question::Plan)?;
    output_of(alloc, &conclusion)
}

/// Draws a saga. The output is a drawing in the DOT language of Graphviz, with the states and the marks of an answer if
/// they are given. If the answer is not right for its case, the output is that of [`check_text`]. A fault of a text
/// goes to standard error.
pub fn draw_text(alloc: Global, definition: &[u8], scene: Scene<'_>) -> Result<Output, AllocError>
    ensures { IfOk result (IsDrawOutput (beside scene.entry) definition.now) }
{
    let conclusion = drawing_of(alloc, definition, scene)?;
    output_of(alloc, &conclusion)
}

/// Audits a log over a shelf of definitions. The output is `yes` with counts if the history is legal. Otherwise it is
/// `no` with the index, from 0, of the first event that was not allowed, and the reason. A fault of a text goes to
/// standard error.
pub fn audit_text<R: Threads + Sync>(
    rt: &R,
    alloc: Global,
    log: &[u8],
    definitions: &[&[u8]],
) -> Result<Output, AllocError>
    ensures { IfOk result (IsAuditOutput log.now (map (λ t. t.now) definitions.now)) }
{
    let conclusion = audit_conclusion(rt, alloc, log, definitions)?;
    output_of_audit(alloc, &conclusion)
}

/// Runs each definition once, in order, as sagas 0, 1 and so on, with a script that gives the outcomes of actions and
/// compensations. The output is the report, with status 1 if a saga is stuck, and the log of the histories, one after
/// the other. If a text has a fault, the fault goes to standard error and nothing runs. If the run stops, the reason
/// goes to standard error with status 4, in addition to the report.
pub fn run_text<R: Threads + Wait + Sync>(
    rt: &R,
    alloc: Global,
    definitions: &[&[u8]],
    script: &[u8],
    workers: u32,
    shards: u32,
) -> Result<RunOutput, AllocError>
    requires workers { (0 < workers) × (workers ≤ 16) }
    requires shards { (0 < shards) × (shards ≤ 16) }
    ensures { IfOk result (IsRunOutput (map (λ t. t.now) definitions.now) script.now shards) }
{
    let conclusion = run_conclusion(rt, alloc, definitions, script, workers, shards)?;
    output_of_run(alloc, conclusion)
}

/// Returns the output of [`audit_text`], on the calling thread only.
pub fn audit_text_alone(
    alloc: Global,
    log: &[u8],
    definitions: &[&[u8]],
) -> Result<Output, AllocError>
    ensures { IfOk result (IsAuditOutput log.now (map (λ t. t.now) definitions.now)) }
{
    let conclusion = audit_conclusion_alone(alloc, log, definitions)?;
    output_of_audit(alloc, &conclusion)
}
