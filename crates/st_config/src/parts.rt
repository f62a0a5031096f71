ghost use Rattle.std.specs.Prelude.{◌≡◌, ◌≤◌, IfSome};
ghost use Rattle.std.specs.Option.{option_copied};
ghost use Rattle.st_config.specs.Header.{number_of, text_of};
ghost use Rattle.st_config.specs.Parts.{unquoted, value_of};

use st_texts::{after_front, before_end, read_number};

/// The value of a line `key = value`.
#[tactic(auto, unfolding(crate::specs::Parts::value_of))]
fn value_of<'a>(line: &'a str, key: &str) -> Option<&'a str>
    ensures { option_copied result ≡ value_of key.now line.now }
{
    let rest = after_front(line, key)?;
    after_front(rest, " = ")
}

/// The text between two quotation marks.
#[tactic(auto, unfolding(crate::specs::Parts::unquoted))]
fn unquoted(text: &str) -> Option<&str>
    ensures { option_copied result ≡ unquoted text.now }
{
    let rest = after_front(text, "\"")?;
    before_end(rest, "\"")
}

/// The number from `least` to `most` that a line gives its key.
#[tactic(auto, unfolding(crate::specs::Header::number_of))]
pub(crate) fn number_of(line: &str, key: &str, least: u64, most: u64) -> Option<u64>
    ensures value { result ≡ number_of key.now least most line.now }
    ensures range { IfSome result (λ n. (least ≤ n) × (n ≤ most)) }
{
    let value = value_of(line, key)?;
    read_number(value, least, most)
}

/// The quoted text that a line gives its key.
#[tactic(auto, unfolding(crate::specs::Header::text_of))]
pub(crate) fn text_of<'a>(line: &'a str, key: &str) -> Option<&'a str>
    ensures { option_copied result ≡ text_of key.now line.now }
{
    let value = value_of(line, key)?;
    unquoted(value)
}
