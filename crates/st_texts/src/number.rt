ghost use Rattle.std.specs.Prelude.{◌≡◌, ◌≤◌, ◌<◌, ◌^◌, ◌↔◌, ℕ, List, Some, IfSome};
ghost use Rattle.std.specs.Fmt.{decimal};
ghost use Rattle.st_texts.specs.Numbers.{has_plain_start, number_in};

/// The number that a text writes in decimal digits, with no sign and no leading zero, where it is from
/// `least` to `most`.
pub fn read_number(text: &str, least: u64, most: u64) -> Option<u64>
    ensures value { result ≡ number_in least most text.now }
    ensures range { IfSome result (λ n. (least ≤ n) × (n ≤ most)) }
{
    if !has_plain_start(text) {
        return None;
    }
    let number = text.parse::<u64>().ok()?;
    if least <= number && number <= most {
        Some(number)
    } else {
        None
    }
}

/// Whether a text begins with no plus, and with a zero only where that is all.
#[tactic(auto, unfolding(crate::specs::Numbers::has_plain_start))]
fn has_plain_start(text: &str) -> bool
    ensures { result ≡ has_plain_start text.now }
{
    match text.as_bytes() {
        [b'+', ..] | [b'0', _, ..] => false,
        _ => true,
    }
}

/// A text is read as a number exactly where it is how that number is written, and the number is in the range.
pub fn numbers_are_their_digits()
    ensures { (least most n : ℕ) (text : List ℕ) → most < 2 ^ 64 → number_in least most text ≡ Some n ↔ ((text ≡ decimal n) × (least ≤ n) × (n ≤ most)) }
{}
