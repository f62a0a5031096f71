ghost use Rattle.std.specs.Prelude.{◌≡◌, ◌≤◌, ◌<◌, ◌+◌, ◌-◌, ◌^◌, length, take, IfSome};
ghost use Rattle.std.specs.Option.{option_map};
ghost use Rattle.std.specs.Str.{IsCharBoundary};
ghost use Rattle.st_input.specs.Parted.{parted, parted_as};

use crate::first::{first_part, is_separator};

/// What an input's text is parted into.
#[derive(Clone, Copy)]
pub(crate) struct Parts<'a> {
    /// The text before the separator.
    pub(crate) header: &'a str,
    /// The number of the line after the separator, in the whole input and from 1.
    pub(crate) first: u32,
    /// The text after the separator.
    pub(crate) events: &'a str,
}

/// The text, parted at its first line `---`; None where there is none.
pub(crate) fn part(text: &str) -> Option<Parts>
    requires { length text.now < 2 ^ 31 }
    ensures value { option_map parted_as result ≡ parted text.now }
    ensures few { IfSome result (λ p. p.first + length p.events.now ≤ length text.now + 3) }
{
    let mut header = 0;
    let mut number = 1;
    let mut rest = text;
    while let Some((line, more)) = first_part(rest) {
        if is_separator(line) {
            return Some(parts_at(text, header, number, more));
        }
        header += line.len() + 1;
        number += 1;
        rest = more;
    }
    if is_separator(rest) {
        Some(parts_at(text, header, number, ""))
    } else {
        None
    }
}

/// The parts where the header has so many bytes, the separator this number, and the events this text.
fn parts_at<'a>(text: &'a str, header: usize, number: u32, events: &'a str) -> Parts<'a>
    requires boundary { IsCharBoundary text.now header }
    requires number { number < 2 ^ 32 - 1 }
    ensures header { result.header.now ≡ take header text.now }
    ensures first { result.first ≡ number + 1 }
    ensures events { result.events.now ≡ events.now }
{
    let (header, _) = text.split_at(header);
    Parts {
        header,
        first: number + 1,
        events,
    }
}
