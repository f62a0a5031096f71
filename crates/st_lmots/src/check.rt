ghost use Rattle.std.specs.Prelude.{◌≡◌, ◌<◌, length};
ghost use Rattle.st_lmots.specs.Kinds.{chains_of, seal_length};
ghost use Rattle.st_lmots.specs.Formulas.{element_end, key_candidate};
ghost use Rattle.st_lmots.specs.Answers.{number_in_front, candidate_answer};

use crate::chain::{chain, place};
use crate::digits::{digit, digits_of};
use crate::error::OtsError;
use crate::hashing::{FOR_KEY, message_digest};
use crate::kind::OtsKind;
use sha2::{Digest, Sha256};
use st_fields::read_u32;

/// The number of four bytes in front, as a type is, where the bytes are long enough to hold one. Takes no
/// memory.
#[tactic(auto, unfolding(crate::specs::Answers::number_in_front))]
pub fn number_in_front(bytes: &[u8]) -> Option<u32>
    ensures { result ≡ number_in_front bytes.now }
{
    match read_u32(bytes) {
        Ok((number, _)) => Some(number),
        Err(_) => None,
    }
}

/// Chain `n`, gone on with from the signature's element to its end.
#[tactic(auto, unfolding(crate::specs::Formulas::element_end))]
fn element_end(
    kind: OtsKind,
    i: &[u8; 16],
    q: u32,
    digits: &[u8; 34],
    signature: &[u8],
    n: u16,
) -> [u8; 32]
    requires chain { n < chains_of kind }
    requires whole { length signature.now ≡ seal_length kind }
    ensures { result ≡ element_end kind i.now q digits.now signature.now n }
{
    let start = 36 + 32 * usize::from(n);
    let mut value = [0; 32];
    value.copy_from_slice(&signature[start..start + 32]);
    chain(&place(i, q, n), digit(kind, digits, n), kind.top(), value)
}

/// The public key that a signature of the right length speaks for. Takes no memory.
#[tactic(auto, using(crate::proofs::GatherLaws::gathered_none, crate::proofs::GatherLaws::gathered_more), unfolding(crate::specs::Formulas::key_candidate))]
pub fn key_candidate(
    kind: OtsKind,
    i: &[u8; 16],
    q: u32,
    message: &[u8],
    signature: &[u8],
) -> [u8; 32]
    requires { length signature.now ≡ seal_length kind }
    ensures { result ≡ key_candidate kind i.now q message.now signature.now }
{
    let digits = digits_of(kind, &message_digest(i, q, &signature[4..36], message));
    let mut hasher = Sha256::new();
    let at = place(i, q, FOR_KEY);
    hasher.update(&at);
    'chains: for n in 0..kind.chains() {
        let end = element_end(kind, i, q, &digits, signature, n);
        hasher.update(&end);
    }
    hasher.finalize()
}

/// The public key that a signature of `message` by leaf `q` of the tree of `i` speaks for, for a key of
/// type `kind`. BadType where that is none of the four, or the signature's own type is another; else
/// BadLength where the signature's length isn't that of its type; else Ok, of any bytes. Takes no
/// memory, and never answers OutOfMemory.
#[tactic(auto, unfolding(crate::specs::Answers::candidate_answer))]
pub fn candidate(
    kind: u32,
    i: &[u8; 16],
    q: u32,
    message: &[u8],
    signature: &[u8],
) -> Result<[u8; 32], OtsError>
    ensures { result ≡ candidate_answer kind i.now q message.now signature.now }
{
    let Some(set) = OtsKind::of(kind) else {
        return Err(OtsError::BadType { got: kind });
    };
    if let Some(got) = number_in_front(signature)
        && got != kind
    {
        return Err(OtsError::BadType { got });
    }
    if signature.len() != set.seal_length() {
        return Err(OtsError::BadLength {
            got: signature.len(),
            want: set.seal_length(),
        });
    }
    Ok(key_candidate(set, i, q, message, signature))
}
