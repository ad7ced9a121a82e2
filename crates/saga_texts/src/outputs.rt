//! The output of the program, and its exit status.
ghost use Rattle.std.specs.Prelude.{◌≡◌, ◌++◌, IfOk, Ok};
ghost use Rattle.std.specs.String.{string_bytes};
ghost use Rattle.serde_json.specs.Written.{compact_text};
ghost use Rattle.saga_cert.specs.Answers.{answer_form, IsPaired};
ghost use Rattle.saga_cert.specs.Reads.{ReadsAnswer};
ghost use Rattle.saga_texts.specs.Lines.{out_of, err_of, status_of, cert_line, step_text, line_feed};
ghost use Rattle.saga_texts.specs.Outputs.{Shows, ReadsBack};

use crate::conclusions::Conclusion;
use saga_case::Answer;
use saga_cert::write_answer;
use saga_json::JsonFault;
use std::alloc::{AllocError, Global};

/// The texts for standard output and standard error, and the exit status.
#[derive(Debug, Drop)]
pub struct Output {
    pub out: String,
    pub err: String,
    pub status: u8,
}

/// Returns the line of a requested answer.
fn answer_line(alloc: Global, answer: &Answer) -> Result<String, AllocError>
    ensures line { IfOk result
        (λ text. string_bytes text ≡ compact_text (answer_form answer.now) ++ line_feed) }
    ensures read_back { IfOk result
        (λ text. IsPaired answer.now
        → ReadsAnswer (compact_text (answer_form answer.now)) (Ok answer.now)) }
{
    let mut line = write_answer(alloc, answer)?;
    line.push_str("\n")?;
    Ok(line)
}

fn out(alloc: Global, conclusion: &Conclusion) -> Result<String, AllocError>
    ensures line { IfOk result (λ text. string_bytes text ≡ out_of conclusion.now) }
    ensures read_back { IfOk result (λ text. ReadsBack conclusion.now) }
{
    match conclusion {
        Conclusion::Least(cost) => format!(in alloc; "least {cost}\n"),
        Conclusion::Blocked => String::from_str(alloc, "blocked\n"),
        Conclusion::Planned(answer) => answer_line(alloc, answer),
        Conclusion::Drawn(text) => String::from_str(alloc, text.as_str()),
        Conclusion::Refused(fault) => {
            let word = fault.word();
            format!(in alloc; "no {word}\n")
        }
        _ => Ok(String::new(alloc)),
    }
}

/// Returns the number of a busy step, which follows its word.
fn step_text(alloc: Global, fault: &JsonFault) -> Result<String, AllocError>
    ensures { IfOk result (λ text. string_bytes text ≡ step_text fault.now) }
{
    match fault {
        JsonFault::Busy(step) => format!(in alloc; " {step}"),
        _ => Ok(String::new(alloc)),
    }
}

fn cert_err(alloc: Global, part: &str, fault: &JsonFault) -> Result<String, AllocError>
    ensures { IfOk result (λ text. string_bytes text ≡ cert_line part.now fault.now) }
{
    let mut line = String::from_str(alloc, "sagas: ")?;
    line.push_str(part)?;
    line.push_str(": ")?;
    line.push_str(fault.word())?;
    line.push_str(step_text(alloc, fault)?.as_str())?;
    line.push_str("\n")?;
    Ok(line)
}

fn err(alloc: Global, conclusion: &Conclusion) -> Result<String, AllocError>
    ensures { IfOk result (λ text. string_bytes text ≡ err_of conclusion.now) }
{
    match conclusion {
        Conclusion::Definition(fault) => {
            let word = fault.word();
            format!(in alloc; "sagas: definition: {word}\n")
        }
        Conclusion::CaseTooLong => String::from_str(alloc, "sagas: case: too-long\n"),
        Conclusion::Case(fault) => cert_err(alloc, "case", fault),
        Conclusion::AnswerTooLong => String::from_str(alloc, "sagas: answer: too-long\n"),
        Conclusion::Answer(fault) => cert_err(alloc, "answer", fault),
        _ => Ok(String::new(alloc)),
    }
}

fn status(conclusion: &Conclusion) -> u8
    ensures { result ≡ status_of conclusion.now }
{
    match conclusion {
        Conclusion::Least(_)
        | Conclusion::Blocked
        | Conclusion::Drawn(_)
        | Conclusion::Planned(Answer::Plan(_)) => 0,
        Conclusion::Refused(_) | Conclusion::Planned(Answer::Blocked(_)) => 1,
        _ => 3,
    }
}

/// Returns the output for a result.
pub fn output_of(alloc: Global, conclusion: &Conclusion) -> Result<Output, AllocError>
    ensures shows { IfOk result (Shows conclusion.now) }
    ensures read_back { IfOk result (λ output. ReadsBack conclusion.now) }
{
    Ok(Output {
        out: out(alloc, conclusion)?,
        err: err(alloc, conclusion)?,
        status: status(conclusion),
    })
}
