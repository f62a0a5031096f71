ghost use Rattle.std.specs.Prelude.{◌≡◌, take};
ghost use Rattle.st_lms.specs.Answers.{signature_length};
ghost use Rattle.st_hss.specs.Checks.{is_right, both_check, checks_by_levels, hss_checks};

use st_lmots::number_in_front;
use st_lms::{LmsError, behind, lms_check, signature_length};

/// The first `n` bytes, or all where there are fewer.
#[tactic(auto, using(std::proofs::lemmas::List::take_all))]
fn front(bytes: &[u8], n: usize) -> &[u8]
    ensures { result.now ≡ take n bytes.now }
{
    if n <= bytes.len() { &bytes[..n] } else { bytes }
}

fn is_right(answer: Result<bool, LmsError>) -> bool
    ensures { result ≡ is_right answer }
{
    match answer {
        Ok(right) => right,
        Err(_) => false,
    }
}

/// Whether the first signature is the first key's over the second key, and the last the second key's over
/// the message.
fn both_check(key: &[u8], message: &[u8], rest: &[u8]) -> bool
    ensures { result ≡ both_check (signature_length key.now) key.now message.now rest.now }
{
    match signature_length(key) {
        None => false,
        Some(n) => {
            let others = behind(rest, n);
            let second = front(others, 56);
            is_right(lms_check(key, second, front(rest, n)))
                && is_right(lms_check(second, message, behind(others, 56)))
        }
    }
}

/// By the number of levels in the key, and of signed keys in the signature.
fn checks_by_levels(
    levels: Option<u32>,
    signed: Option<u32>,
    key: &[u8],
    message: &[u8],
    rest: &[u8],
) -> bool
    ensures { result ≡ checks_by_levels levels signed key.now message.now rest.now }
{
    match (levels, signed) {
        (Some(levels), Some(signed)) => {
            if levels == 1 && signed == 0 {
                is_right(lms_check(key, message, rest))
            } else if levels == 2 && signed == 1 {
                both_check(key, message, rest)
            } else {
                false
            }
        }
        _ => false,
    }
}

/// Whether the signature is the key's over the message, for keys of one or two levels of any types: false
/// wherever any part is refused. Takes no memory.
#[tactic(auto, unfolding(crate::specs::Checks::hss_checks))]
pub fn hss_check(key: &[u8], message: &[u8], signature: &[u8]) -> bool
    ensures { result ≡ hss_checks key.now message.now signature.now }
{
    let levels = number_in_front(key);
    let signed = number_in_front(signature);
    checks_by_levels(
        levels,
        signed,
        behind(key, 4),
        message,
        behind(signature, 4),
    )
}
