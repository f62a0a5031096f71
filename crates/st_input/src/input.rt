ghost use Rattle.std.specs.Prelude.{◌≡◌, ◌≤◌, length, IfOk};
ghost use Rattle.std.specs.List.{All};
ghost use Rattle.st_config.specs.Taken.{IsTaken};
ghost use Rattle.st_config.specs.Built.{IsBuilt};
ghost use Rattle.st_input.specs.Input.{Reads, input_of};

use crate::events::read_events;
use crate::fault::{InputError, InputFault};
use crate::limits::MOST_INPUT;
use crate::parted::part;
use st_config::read_header;
use st_fields::Seq;
use st_schedule::Line;
use st_words::Deployment;
use std::alloc::Global;

/// An event line, with the line's number in the whole input, from 1.
#[derive(Drop)]
pub struct InputLine {
    pub number: u32,
    pub line: Line,
}

/// A list of event lines.
pub type InputLines = Seq<InputLine>;

/// What an input says.
#[derive(Drop)]
pub struct Input {
    pub deployment: Deployment,
    pub lines: InputLines,
}

/// The deployment and the event lines of an input, or its first fault.
///
/// These are looked for in this order: bytes that are no UTF-8, no line `---`, a text before the first such
/// line that is no header which is taken, and then the first line after it with a fault: an event line after
/// 65,536 others, one of more than 9,437,184 bytes, a line out of the grammar, or one that isn't taken today.
#[tactic(auto, unfolding(crate::specs::Input::input_of, crate::specs::Input::input_of_parted))]
pub fn read_input(alloc: Global, bytes: &[u8]) -> Result<Input, InputError>
    requires { length bytes.now ≤ MOST_INPUT }
    ensures read { Reads result (input_of bytes.now) }
    ensures taken { IfOk result (λ input. IsTaken input.deployment) }
    ensures built { IfOk result (λ input. All (λ x. IsBuilt x.line) input.lines) }
{
    let Ok(text) = str::from_utf8(bytes) else {
        return Err(InputError::Fault(InputFault::Utf8));
    };
    let Some(parts) = part(text) else {
        return Err(InputError::Fault(InputFault::NoSeparator));
    };
    let deployment = read_header(alloc, parts.header)?;
    let lines = read_events(alloc, parts.events, parts.first)?;
    Ok(Input { deployment, lines })
}
