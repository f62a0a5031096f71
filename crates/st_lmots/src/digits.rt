ghost use Rattle.std.specs.Prelude.{◌≡◌, ◌*◌, ◌/◌, ◌<◌, ◌≤◌, length};
ghost use Rattle.st_lmots.specs.Kinds.{width_of, chains_of, top_of};
ghost use Rattle.st_lmots.specs.Formulas.{coef, checksum, digits_of, digit};

use crate::arrays::joined_array;
use crate::kind::OtsKind;

/// Digit `i` of these bytes.
#[tactic(auto, unfolding(crate::specs::Formulas::coef))]
fn coef(kind: OtsKind, bytes: &[u8], i: u16) -> u8
    requires { i * width_of kind / 8 < length bytes.now }
    ensures value { result ≡ coef bytes.now i (width_of kind) }
    ensures within { result ≤ top_of kind }
{
    let width = u32::from(kind.width());
    let i = u32::from(i);
    let byte = bytes[(i * width / 8) as usize];
    let right = 8 - (width * (i % (8 / width)) + width);
    kind.top() & (byte >> right)
}

/// How far the digits of a digest are from the greatest, together, shifted to the left.
#[tactic(auto, using(crate::proofs::SumLaws::sum_none, crate::proofs::SumLaws::sum_more, crate::proofs::SumLaws::sum_small, crate::proofs::SumLaws::checksum_fits), unfolding(crate::specs::Formulas::checksum))]
fn checksum(kind: OtsKind, digest: &[u8; 32]) -> u16
    ensures { result ≡ checksum kind digest.now }
{
    let mut sum: u16 = 0;
    for i in 0..256 / u16::from(kind.width()) {
        sum += u16::from(kind.top() - coef(kind, digest, i));
    }
    sum << kind.shift()
}

/// What the digits are in: a digest, and its checksum behind it.
#[tactic(auto, unfolding(crate::specs::Formulas::digits_of, st_fields::specs::Spelling::number))]
pub(crate) fn digits_of(kind: OtsKind, digest: &[u8; 32]) -> [u8; 34]
    ensures { result ≡ digits_of kind digest.now }
{
    joined_array(digest, &checksum(kind, digest).to_be_bytes())
}

/// Digit `n`.
pub(crate) fn digit(kind: OtsKind, digits: &[u8; 34], n: u16) -> u8
    requires { n < chains_of kind }
    ensures value { result ≡ digit kind digits.now n }
    ensures within { result ≤ top_of kind }
{
    coef(kind, digits, n)
}
