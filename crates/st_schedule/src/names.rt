//! The words by which a line names servers, clients, messages and choices.

ghost use Rattle.std.specs.Prelude.{◌≡◌};
ghost use Rattle.std.specs.Option.{option_map};
ghost use Rattle.st_schedule.specs.Lines.{choice_of, dest_of, number_of, pair_of, server_of, short_in};

use crate::Dest;
use st_texts::{after_front, read_number};
use st_words::{ClientId, ServerId};

/// A number of one byte.
fn read_short(word: &str) -> Option<u8>
    ensures { result ≡ short_in word.now }
{
    let number = read_number(word, 0, u64::from(u8::MAX))?;
    Some(number as u8)
}

/// A number of four bytes.
pub(crate) fn read_word(word: &str) -> Option<u32>
    ensures { result ≡ number_of word.now }
{
    let number = read_number(word, 0, u64::from(u32::MAX))?;
    Some(number as u32)
}

/// A client.
pub(crate) fn read_client(word: &str) -> Option<ClientId>
    ensures { option_map (λ c. c.0) result ≡ short_in word.now }
{
    let number = read_short(word)?;
    Some(ClientId(number))
}

/// A server: `s.i`.
#[tactic(auto, unfolding(crate::specs::Lines::server_of))]
pub(crate) fn read_server(word: &str) -> Option<ServerId>
    ensures { result ≡ server_of word.now }
{
    let (site, index) = word.split_once('.')?;
    let site = read_short(site)?;
    let index = read_short(index)?;
    Some(ServerId { site, index })
}

/// A destination: `s.i`, or `cN`.
#[tactic(auto, unfolding(crate::specs::Lines::dest_of))]
pub(crate) fn read_dest(word: &str) -> Option<Dest>
    ensures { result ≡ dest_of word.now }
{
    match after_front(word, "c") {
        Some(number) => Some(Dest::Client(ClientId(read_short(number)?))),
        None => Some(Dest::Server(read_server(word)?)),
    }
}

/// Whether a word is the first of two; None where it is neither.
#[tactic(auto, unfolding(crate::specs::Lines::choice_of))]
pub(crate) fn read_choice(word: &str, yes: &str, no: &str) -> Option<bool>
    ensures { result ≡ choice_of yes.now no.now word.now }
{
    if word == yes {
        Some(true)
    } else if word == no {
        Some(false)
    } else {
        None
    }
}

/// A message's number and a destination.
#[tactic(auto, unfolding(crate::specs::Lines::pair_of))]
pub(crate) fn read_pair(message: &str, to: &str) -> Option<(u32, Dest)>
    ensures { result ≡ pair_of message.now to.now }
{
    let message = read_word(message)?;
    let to = read_dest(to)?;
    Some((message, to))
}
