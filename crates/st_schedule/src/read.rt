ghost use Rattle.std.specs.Prelude.{◌≡◌, ◌+◌, map, take, IfOk, IfSome};
ghost use Rattle.std.specs.Option.{option_map};
ghost use Rattle.st_schedule.specs.declared.line.Line.TheVariants as lines;
ghost use Rattle.st_schedule.specs.Lines.{Reads, client_event, event_of, event_of_three, event_of_two, bare, flow_event, is_bare, line_of, pair_of, raw_event, restart_event, seal_event, sealed_kinds, statement_of, stop_event, timeout_event, words};
ghost use Rattle.st_fields.specs.Reading.{Answers, whole};
ghost use Rattle.st_words.specs.Ranges.{KeepsStatement};
ghost use Rattle.st_words.specs.Reading.{core_at};
ghost use Rattle.st_schedule.specs.Ranges.{IsServers, KeepsLine, KeepsSealed};
ghost use Rattle.st_schedule.specs.declared.read.ScheduleError.TheVariants as errors;

use crate::limits::{MOST_CALL, MOST_FLOW, MOST_OPERATION};
use crate::line::Line;
use crate::names::{read_choice, read_client, read_dest, read_pair, read_server, read_word};
use st_fields::{WordsError, read_whole};
use st_texts::{read_hex, read_number};
use st_words::{Statement, StatementKind, read_core};
use std::alloc::{AllocError, Global};

/// How many words an event line has at most.
const MOST_WORDS: usize = 3;

/// The kinds of statements that a server seals.
const SEALED_KINDS: [StatementKind; 10] = [
    StatementKind::Prepare,
    StatementKind::Proposal,
    StatementKind::Accept,
    StatementKind::LocalVc,
    StatementKind::GlobalVc,
    StatementKind::LocalReport,
    StatementKind::GlobalReport,
    StatementKind::LocalUnion,
    StatementKind::GlobalUnion,
    StatementKind::Reply,
];

/// Why a line was not read.
#[derive(Clone, Copy, Debug, PartialEq, Eq)]
pub enum ScheduleError {
    /// The text is out of the grammar of event lines.
    BadLine,
    /// Memory was refused.
    OutOfMemory,
}

impl From<AllocError> for ScheduleError {
    ghost from_gives = { λ _ e. e ≡ errors.OutOfMemory };

    fn from(_: AllocError) -> ScheduleError {
        ScheduleError::OutOfMemory
    }
}

/// The event of a line, which is without its newline: None for a line that is skipped, BadLine for a text
/// that is out of the grammar.
#[tactic(auto, unfolding(crate::specs::Lines::line_of))]
pub fn read_line(alloc: Global, text: &str) -> Result<Option<Line>, ScheduleError>
    ensures read { Reads result (line_of text.now) }
    ensures kept { IfOk result (λ line. IfSome line KeepsLine) }
{
    if text.is_empty() || text.starts_with('#') {
        return Ok(None);
    }
    match read_event(alloc, text)? {
        Some(line) => Ok(Some(line)),
        None => Err(ScheduleError::BadLine),
    }
}

/// The event that a line's words say; None where they are out of the grammar.
fn read_event(alloc: Global, text: &str) -> Result<Option<Line>, AllocError>
    ensures value { IfOk result (λ line. line ≡ event_of (words text.now)) }
    ensures kept { IfOk result (λ line. IfSome line KeepsLine) }
{
    let words = first_words(alloc, text)?;
    match words.as_slice() {
        [word, a] => Ok(read_two(word, a)),
        [word, a, b] => Ok(read_three(alloc, word, a, b)?),
        _ => Ok(None),
    }
}

/// The first words of a line, one more than an event line has: that many show that there are too many.
fn first_words(alloc: Global, text: &str) -> Result<Vec<&str>, AllocError>
    ensures { IfOk result (λ v. map (λ word. word.now) v.items ≡ take (MOST_WORDS + 1) (words text.now)) }
{
    text.split(' ').take(MOST_WORDS + 1).collect(alloc)
}

#[tactic(auto, unfolding(crate::specs::Lines::event_of_two))]
fn read_two(word: &str, a: &str) -> Option<Line>
    ensures value { result ≡ event_of_two word.now a.now }
    ensures kept { IfSome result KeepsLine }
{
    if word == "flow" {
        read_flow(a)
    } else if word == "lose" {
        Some(Line::Lose { to: read_dest(a)? })
    } else if word == "tick" {
        Some(Line::Tick {
            server: read_server(a)?,
        })
    } else if word == "show" {
        Some(Line::Show {
            message: read_word(a)?,
        })
    } else {
        None
    }
}

#[tactic(auto, unfolding(crate::specs::Lines::event_of_three))]
fn read_three(alloc: Global, word: &str, a: &str, b: &str) -> Result<Option<Line>, AllocError>
    ensures value { IfOk result (λ line. line ≡ event_of_three word.now a.now b.now) }
    ensures kept { IfOk result (λ line. IfSome line KeepsLine) }
{
    if word == "client" {
        read_submit(alloc, a, b)
    } else if word == "deliver" {
        Ok(read_deliver(a, b))
    } else if word == "drop" {
        Ok(read_drop(a, b))
    } else if word == "timeout" {
        Ok(read_timeout(a, b))
    } else if word == "stop" {
        Ok(read_stop(a, b))
    } else if word == "restart" {
        Ok(read_restart(a, b))
    } else if word == "seal" {
        read_seal(alloc, a, b)
    } else if word == "raw" {
        read_raw(alloc, a, b)
    } else {
        Ok(None)
    }
}

#[tactic(auto, unfolding(crate::specs::Lines::flow_event))]
fn read_flow(pairs: &str) -> Option<Line>
    ensures value { result ≡ flow_event pairs.now }
    ensures kept { IfSome result KeepsLine }
{
    let pairs = read_number(pairs, 1, u64::from(MOST_FLOW))? as u32;
    Some(Line::Flow { pairs })
}

#[tactic(auto, unfolding(crate::specs::Lines::client_event))]
fn read_submit(alloc: Global, client: &str, op: &str) -> Result<Option<Line>, AllocError>
    ensures value { IfOk result (λ line. line ≡ client_event client.now op.now) }
    ensures kept { IfOk result (λ line. IfSome line KeepsLine) }
{
    if op.len() > 2 * MOST_OPERATION {
        return Ok(None);
    }
    let Some(client) = read_client(client) else {
        return Ok(None);
    };
    let Some(op) = read_hex(alloc, op)? else {
        return Ok(None);
    };
    Ok(Some(Line::Client { client, op }))
}

fn read_deliver(message: &str, to: &str) -> Option<Line>
    ensures kept { IfSome result KeepsLine }
    ensures value { result ≡ option_map (λ p. lines.Deliver p.0 p.1) (pair_of message.now to.now) }
{
    let (message, to) = read_pair(message, to)?;
    Some(Line::Deliver { message, to })
}

fn read_drop(message: &str, to: &str) -> Option<Line>
    ensures kept { IfSome result KeepsLine }
    ensures value { result ≡ option_map (λ p. lines.Drop p.0 p.1) (pair_of message.now to.now) }
{
    let (message, to) = read_pair(message, to)?;
    Some(Line::Drop { message, to })
}

#[tactic(auto, unfolding(crate::specs::Lines::timeout_event))]
fn read_timeout(server: &str, which: &str) -> Option<Line>
    ensures value { result ≡ timeout_event server.now which.now }
    ensures kept { IfSome result KeepsLine }
{
    let server = read_server(server)?;
    let global = read_choice(which, "global", "local")?;
    Some(Line::Timeout { server, global })
}

#[tactic(auto, unfolding(crate::specs::Lines::stop_event))]
fn read_stop(server: &str, call: &str) -> Option<Line>
    ensures value { result ≡ stop_event server.now call.now }
    ensures kept { IfSome result KeepsLine }
{
    let server = read_server(server)?;
    let call = read_number(call, 1, u64::from(MOST_CALL))? as u32;
    Some(Line::Stop { server, call })
}

#[tactic(auto, unfolding(crate::specs::Lines::restart_event))]
fn read_restart(server: &str, which: &str) -> Option<Line>
    ensures value { result ≡ restart_event server.now which.now }
    ensures kept { IfSome result KeepsLine }
{
    let server = read_server(server)?;
    let kept = read_choice(which, "kept", "lost")?;
    Some(Line::Restart { server, kept })
}

#[tactic(auto, unfolding(crate::specs::Lines::seal_event))]
fn read_seal(alloc: Global, server: &str, core: &str) -> Result<Option<Line>, AllocError>
    ensures value { IfOk result (λ line. line ≡ seal_event server.now core.now) }
    ensures kept { IfOk result (λ line. IfSome line KeepsLine) }
{
    let Some(server) = read_server(server) else {
        return Ok(None);
    };
    let Some(bytes) = read_hex(alloc, core)? else {
        return Ok(None);
    };
    match read_sealed(alloc, bytes.as_slice())? {
        Some(statement) => Ok(Some(Line::Seal { server, statement })),
        None => Ok(None),
    }
}

/// The statement whose core these bytes are, where a faulty server may seal it.
#[tactic(auto, unfolding(crate::specs::Lines::statement_of))]
fn read_sealed(alloc: Global, bytes: &[u8]) -> Result<Option<Statement>, AllocError>
    ensures value { IfOk result (λ s. s ≡ statement_of bytes.now) }
    ensures kept { IfOk result (λ s. IfSome s KeepsSealed) }
{
    match read_server_core(alloc, bytes) {
        Ok(statement) => Ok(bare(statement)),
        Err(WordsError::Malformed { .. }) => Ok(None),
        Err(WordsError::OutOfMemory) => Err(AllocError),
    }
}

/// The statement whose core these bytes are, of a kind that servers seal.
#[tactic(auto, unfolding(st_fields::specs::Reading::whole))]
fn read_server_core(alloc: Global, bytes: &[u8]) -> Result<Statement, WordsError>
    ensures read { Answers result (whole (core_at sealed_kinds) bytes.now) }
    ensures kept { IfOk result (λ s. KeepsStatement s × IsServers s) }
{
    read_whole(bytes, read_core(alloc, &SEALED_KINDS, bytes))
}

/// A statement, where it is no report or a bare one.
fn bare(statement: Statement) -> Option<Statement>
    ensures value { result ≡ bare statement }
    ensures kept { KeepsStatement statement × IsServers statement → IfSome result KeepsSealed }
{
    if is_bare(&statement) {
        Some(statement)
    } else {
        None
    }
}

/// Whether a statement is no report, or one without items whose base is 0.
fn is_bare(statement: &Statement) -> bool
    ensures { result ≡ is_bare statement.now }
{
    match statement {
        Statement::LocalReport { base, items, .. } | Statement::GlobalReport { base, items, .. } =>
            { *base == 0 && items.is_empty() }
        _ => true,
    }
}

#[tactic(auto, unfolding(crate::specs::Lines::raw_event))]
fn read_raw(alloc: Global, to: &str, bytes: &str) -> Result<Option<Line>, AllocError>
    ensures value { IfOk result (λ line. line ≡ raw_event to.now bytes.now) }
    ensures kept { IfOk result (λ line. IfSome line KeepsLine) }
{
    let Some(to) = read_dest(to) else {
        return Ok(None);
    };
    let Some(bytes) = read_hex(alloc, bytes)? else {
        return Ok(None);
    };
    Ok(Some(Line::Raw { to, bytes }))
}
