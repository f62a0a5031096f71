ghost use Rattle.std.specs.Prelude.{◌≡◌, ◌≤◌, ◌<◌, ◌+◌, ◌++◌, ◌^◌, length, IfOk, IfSome, OnOk};
ghost use Rattle.std.specs.List.{All};
ghost use Rattle.std.specs.Str.Lines.{lines};
ghost use Rattle.st_schedule.specs.Lines.{line_of};
ghost use Rattle.st_config.specs.Built.{IsBuilt};
ghost use Rattle.st_input.specs.Input.{Gives, Reads, before, events_from, events_in, is_skipped, line_at, taken_at};

use crate::fault::{InputError, InputFault};
use crate::first::first_line;
use crate::input::{InputLine, InputLines};
use crate::limits::{LONGEST_LINE, MOST_LINES};
use st_config::is_built;
use st_fields::Seq;
use st_schedule::{Line, ScheduleError, read_line};
use std::alloc::Global;

/// The events of a text's lines, of which the first has this number.
pub(crate) fn read_events(alloc: Global, text: &str, first: u32) -> Result<InputLines, InputError>
    requires { first + length text.now < 2 ^ 32 }
    ensures read { Reads result (events_from first 0 (lines text.now)) }
    ensures built { IfOk result (λ events. All (λ x. IsBuilt x.line) events) }
{
    let mut events = Seq::new(alloc);
    let mut number = first;
    let mut rest = text;
    while !rest.is_empty() {
        let (line, more) = first_line(rest);
        read_event(alloc, line, number, &mut events)?;
        number += 1;
        rest = more;
    }
    Ok(events)
}

/// Puts the event of a line last, if it has one.
fn read_event(
    alloc: Global,
    line: &str,
    number: u32,
    events: &mut InputLines,
) -> Result<(), InputError>
    ensures read { Gives (λ _. events.new) result (before events.old (line_at number (length events.old) line.now)) }
    ensures built { OnOk result (All (λ x. IsBuilt x.line) events.old → All (λ x. IsBuilt x.line) events.new) }
{
    if let Some(line) = read_event_line(alloc, line, number, events.len())? {
        events.push(InputLine { number, line })?;
    }
    Ok(())
}

/// The event of a line, which has so many event lines above it.
#[tactic(auto, unfolding(crate::specs::Input::line_at))]
fn read_event_line(
    alloc: Global,
    line: &str,
    number: u32,
    above: usize,
) -> Result<Option<Line>, InputError>
    ensures read { Gives (λ event. events_in number event) result (line_at number above line.now) }
    ensures built { IfOk result (λ event. IfSome event IsBuilt) }
{
    if is_skipped(line) {
        return Ok(None);
    }
    if above >= MOST_LINES {
        return Err(InputError::Fault(InputFault::TooManyLines { line: number }));
    }
    if line.len() > LONGEST_LINE {
        return Err(InputError::Fault(InputFault::LongLine { line: number }));
    }
    read_taken(alloc, line, number)
}

/// Whether a line is skipped.
#[tactic(auto, unfolding(st_schedule::specs::Lines::line_of))]
fn is_skipped(line: &str) -> bool
    ensures { result ≡ is_skipped (line_of line.now) }
{
    line.is_empty() || line.starts_with('#')
}

/// The event of a line, where it is of the grammar and one that is taken today.
fn read_taken(alloc: Global, line: &str, number: u32) -> Result<Option<Line>, InputError>
    ensures read { Gives (λ event. events_in number event) result (taken_at number (line_of line.now)) }
    ensures built { IfOk result (λ event. IfSome event IsBuilt) }
{
    match read_line(alloc, line) {
        Ok(Some(line)) if !is_built(&line) => {
            Err(InputError::Fault(InputFault::NotBuilt { line: number }))
        }
        Ok(event) => Ok(event),
        Err(ScheduleError::BadLine) => Err(InputError::Fault(InputFault::Grammar { line: number })),
        Err(ScheduleError::OutOfMemory) => Err(InputError::OutOfMemory),
    }
}
