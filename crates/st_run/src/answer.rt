ghost use Rattle.std.specs.Prelude.{◌≡◌, ◌≤◌, ◌++◌, map, length, string_bytes, codes, IfOk};
ghost use Rattle.std.specs.Fmt.{decimal};
ghost use Rattle.st_run.specs.Answers.{at_line, bad_input, bytes_answer, fault_answer, forged, is_replay, line, replay_answer, too_large, usage};
ghost use Rattle.st_replay.specs.Replay.{replay_of};
ghost use Rattle.std.specs.List.{All};
ghost use Rattle.st_config.specs.Built.{IsBuilt};
ghost use Rattle.st_config.specs.Taken.{IsTaken};
ghost use Rattle.st_run.specs.Promised.{IsPromised};
ghost use Rattle.st_run.specs.declared.status.Status.TheVariants as statuses;

use crate::status::Status;
use st_fields::{Bytes, Seq, WordsError};
use st_input::{Input, InputError, InputFault, MOST_INPUT, read_input};
use st_replay::{ReplayError, replay};
use std::alloc::Global;

/// What a run answers.
#[derive(Drop)]
pub struct Answer {
    pub status: Status,
    pub text: Bytes,
}

/// Whether the words are the one word `replay`.
#[tactic(auto, unfolding(crate::specs::Answers::is_replay))]
pub(crate) fn is_replay(words: &[String]) -> bool
    ensures { result ≡ is_replay (map string_bytes words.now) }
{
    match words {
        [word] => word.as_str() == "replay",
        _ => false,
    }
}

/// A text and a newline.
fn line(alloc: Global, text: &str) -> Result<Bytes, WordsError>
    ensures { IfOk result (λ bytes. bytes ≡ line text.now) }
{
    let mut bytes = Seq::from_slice(alloc, text.as_bytes())?;
    bytes.push(b'\n')?;
    Ok(bytes)
}

/// How the program is called.
#[tactic(auto, unfolding(crate::specs::Answers::usage))]
pub(crate) fn usage(alloc: Global) -> Result<Answer, WordsError>
    ensures { IfOk result (λ answer. answer ≡ usage) }
{
    let text = line(
        alloc,
        "usage: steward replay | demo SEED COUNT | node WHO --turns T",
    )?;
    Ok(Answer {
        status: Status::Usage,
        text,
    })
}

/// The input is none that is taken: what is wrong with it.
#[tactic(auto, unfolding(crate::specs::Answers::bad_input))]
fn bad_input(alloc: Global, what: &str) -> Result<Answer, WordsError>
    ensures { IfOk result (λ answer. answer ≡ bad_input what.now) }
{
    let text = format!(in alloc; "bad input: {what}")?;
    Ok(Answer {
        status: Status::BadInput,
        text: line(alloc, text.as_str())?,
    })
}

/// Something is larger than it may be.
#[tactic(auto, unfolding(crate::specs::Answers::too_large))]
pub(crate) fn too_large(alloc: Global, what: &str) -> Result<Answer, WordsError>
    ensures { IfOk result (λ answer. answer ≡ too_large what.now) }
{
    let text = format!(in alloc; "too large: {what}")?;
    Ok(Answer {
        status: Status::TooLarge,
        text: line(alloc, text.as_str())?,
    })
}

/// A seal that nobody made would be delivered.
#[tactic(auto, unfolding(crate::specs::Answers::forged))]
fn forged(alloc: Global, what: &str) -> Result<Answer, WordsError>
    ensures { IfOk result (λ answer. answer ≡ forged what.now) }
{
    let text = format!(in alloc; "forged: {what}")?;
    Ok(Answer {
        status: Status::Forged,
        text: line(alloc, text.as_str())?,
    })
}

/// A line by its number, and what of it.
#[tactic(auto, unfolding(crate::specs::Answers::at_line))]
fn at_line(alloc: Global, line: u32, what: &str) -> Result<String, WordsError>
    ensures { IfOk result (λ text. string_bytes text ≡ at_line line what.now) }
{
    Ok(format!(in alloc; "line {line}{what}")?)
}

/// What is wrong with a line of the input.
fn bad_line(alloc: Global, line: u32, what: &str) -> Result<Answer, WordsError>
    ensures { IfOk result (λ answer. answer ≡ bad_input (at_line line what.now)) }
{
    bad_input(alloc, at_line(alloc, line, what)?.as_str())
}

/// The bytes that a line brings in hold such a seal, at this offset.
fn forged_at(alloc: Global, line: u32, place: usize) -> Result<Answer, WordsError>
    ensures { IfOk result (λ answer. answer ≡ forged (at_line line (codes " place " ++ decimal place))) }
{
    let what = format!(in alloc; " place {place}")?;
    forged(alloc, at_line(alloc, line, what.as_str())?.as_str())
}

/// The answer to an input with this fault.
#[tactic(auto, unfolding(crate::specs::Answers::fault_answer))]
fn fault_answer(alloc: Global, fault: InputFault) -> Result<Answer, WordsError>
    ensures { IfOk result (λ answer. answer ≡ fault_answer fault) }
{
    match fault {
        InputFault::Utf8 => bad_input(alloc, "utf-8"),
        InputFault::NoSeparator => bad_input(alloc, "no separator"),
        InputFault::Deployment => bad_input(alloc, "deployment: not-built"),
        InputFault::TooManyLines { line } => too_large(alloc, at_line(alloc, line, "")?.as_str()),
        InputFault::LongLine { line } => too_large(alloc, at_line(alloc, line, "")?.as_str()),
        InputFault::Grammar { line } => bad_line(alloc, line, ": grammar"),
        InputFault::NotBuilt { line } => bad_line(alloc, line, ": not-built"),
    }
}

/// The answer to an input's bytes.
#[tactic(auto, unfolding(crate::specs::Answers::bytes_answer))]
pub(crate) fn bytes_answer(alloc: Global, bytes: &[u8]) -> Result<Answer, WordsError>
    requires { length bytes.now ≤ MOST_INPUT }
    ensures answer { IfOk result (λ answer. answer ≡ bytes_answer bytes.now) }
    ensures promised { IfOk result (λ answer. answer.status ≡ statuses.Ok → IsPromised bytes.now) }
{
    match read_input(alloc, bytes) {
        Ok(input) => replay_answer(alloc, &input),
        Err(InputError::Fault(fault)) => fault_answer(alloc, fault),
        Err(InputError::OutOfMemory) => Err(WordsError::OutOfMemory),
    }
}

/// The answer to a replayed input.
#[tactic(auto, unfolding(crate::specs::Answers::ended_answer))]
fn replay_answer(alloc: Global, input: &Input) -> Result<Answer, WordsError>
    requires taken { IsTaken input.now.deployment }
    requires built { All (λ x. IsBuilt x.line) input.now.lines }
    ensures answer { IfOk result (λ answer. answer ≡ replay_answer (replay_of input.now)) }
{
    match replay(alloc, input) {
        Ok(text) => Ok(Answer {
            status: Status::Ok,
            text,
        }),
        Err(ReplayError::BadReference { line }) => bad_line(alloc, line, ": reference"),
        Err(ReplayError::Forged { line, place }) => forged_at(alloc, line, place),
        Err(ReplayError::TooMany { .. }) => too_large(alloc, "messages"),
        Err(ReplayError::TooMuch { .. }) => too_large(alloc, "messages"),
        Err(ReplayError::OutOfMemory) => Err(WordsError::OutOfMemory),
    }
}
