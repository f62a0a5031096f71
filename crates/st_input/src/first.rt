ghost use Rattle.std.specs.Prelude.{◌≡◌, ◌<◌, ◌+◌, [], ◌∷◌, ◌++◌, length, IfSome, MatchOption};
ghost use Rattle.std.specs.Str.Lines.{lines, strip_carriage_return};
ghost use Rattle.st_input.specs.Parted.{is_separator, parts};

/// The part of a text before its first newline, and the text after that; None where there is no newline.
pub(crate) fn first_part(text: &str) -> Option<(&str, &str)>
    ensures parts { MatchOption result (parts text.now ≡ text.now ∷ []) (λ x. parts text.now ≡ x.0.now ∷ parts x.1.now) }
    ensures whole { IfSome result (λ x. text.now ≡ x.0.now ++ 10 ∷ x.1.now) }
{
    text.split_once('\n')
}

/// A part without the carriage return at its end.
fn without_return(part: &str) -> &str
    ensures { result.now ≡ strip_carriage_return part.now }
{
    match part.strip_suffix('\r') {
        Some(front) => front,
        None => part,
    }
}

/// Whether a part is `---`, where a carriage return at its end is dropped.
pub(crate) fn is_separator(part: &str) -> bool
    ensures { result ≡ is_separator part.now }
{
    without_return(part) == "---"
}

/// The first line of a text that is not empty, and the text after it.
pub(crate) fn first_line(text: &str) -> (&str, &str)
    requires { 0 < length text.now }
    ensures lines { lines text.now ≡ result.0.now ∷ lines result.1.now }
    ensures less { length result.1.now < length text.now }
{
    match first_part(text) {
        Some((part, rest)) => (without_return(part), rest),
        None => (text, ""),
    }
}
