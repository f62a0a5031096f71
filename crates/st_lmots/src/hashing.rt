//! The hashes of a leaf, each by the formula that it is named after.

ghost use Rattle.std.specs.Prelude.{◌≡◌};
ghost use Rattle.st_lmots.specs.Formulas.{randomizer, message_digest, chain_end};

use crate::chain::{chain, place, secret};
use crate::kind::OtsKind;
use sha2::{Digest, Sha256};

/// What the hash of a public key, and of a message, has in the place of a chain's number.
pub(crate) const FOR_KEY: u16 = 0x8080;

const FOR_MESSAGE: u16 = 0x8181;

/// The randomizer C of a leaf.
#[tactic(auto, unfolding(crate::specs::Formulas::randomizer, st_fields::specs::Spelling::number))]
pub(crate) fn randomizer(seed: &[u8; 32], i: &[u8; 16], q: u32) -> [u8; 32]
    ensures { result ≡ randomizer seed.now i.now q }
{
    let mut hasher = Sha256::new();
    hasher.update(&[5]);
    hasher.update(seed);
    hasher.update(i);
    hasher.update(&q.to_be_bytes());
    hasher.finalize()
}

/// The digest of a message under the randomizer `c`.
#[tactic(auto, unfolding(crate::specs::Formulas::message_digest))]
pub(crate) fn message_digest(i: &[u8; 16], q: u32, c: &[u8], message: &[u8]) -> [u8; 32]
    ensures { result ≡ message_digest i.now q c.now message.now }
{
    let at = place(i, q, FOR_MESSAGE);
    let mut hasher = Sha256::new();
    hasher.update(&at);
    hasher.update(c);
    hasher.update(message);
    hasher.finalize()
}

/// The end of chain `n`.
#[tactic(auto, unfolding(crate::specs::Formulas::chain_end))]
pub(crate) fn chain_end(kind: OtsKind, i: &[u8; 16], q: u32, seed: &[u8; 32], n: u16) -> [u8; 32]
    ensures { result ≡ chain_end kind i.now q seed.now n }
{
    let at = place(i, q, n);
    chain(&at, 0, kind.top(), secret(&at, seed))
}
