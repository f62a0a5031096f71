ghost use Rattle.std.specs.Prelude.{◌≡◌, ◌<◌, ◌++◌, IsNone, IsSome, IsSomeAnd, IfOk, OnOk, IsOkUnless, Err};
ghost use Rattle.st_lmots.specs.declared.error.OtsError.TheVariants as errors;
ghost use Rattle.st_lmots.specs.Kinds.{kind_of, chains_of};
ghost use Rattle.st_lmots.specs.Formulas.{ots_key, element, ots_signature};

use crate::chain::{chain, place, secret};
use crate::digits::{digit, digits_of};
use crate::error::OtsError;
use crate::hashing::{FOR_KEY, chain_end, message_digest, randomizer};
use crate::kind::OtsKind;
use sha2::{Digest, Sha256};
use st_fields::{Bytes, Seq, put_bytes, put_u32};
use std::alloc::{AllocError, Global};

/// The public key K of leaf `q` of the tree of `i` and `seed`: the hash over the ends of its chains.
/// Takes no memory.
#[tactic(auto, using(crate::proofs::GatherLaws::gathered_none, crate::proofs::GatherLaws::gathered_more), unfolding(crate::specs::Formulas::ots_key))]
pub fn ots_key(kind: OtsKind, i: &[u8; 16], q: u32, seed: &[u8; 32]) -> [u8; 32]
    ensures { result ≡ ots_key kind i.now q seed.now }
{
    let mut hasher = Sha256::new();
    let at = place(i, q, FOR_KEY);
    hasher.update(&at);
    'chains: for n in 0..kind.chains() {
        let end = chain_end(kind, i, q, seed, n);
        hasher.update(&end);
    }
    hasher.finalize()
}

/// Chain `n` as far as its digit says.
#[tactic(auto, unfolding(crate::specs::Formulas::element))]
fn element(
    kind: OtsKind,
    i: &[u8; 16],
    q: u32,
    seed: &[u8; 32],
    digits: &[u8; 34],
    n: u16,
) -> [u8; 32]
    requires { n < chains_of kind }
    ensures { result ≡ element kind i.now q seed.now digits.now n }
{
    let at = place(i, q, n);
    chain(&at, 0, digit(kind, digits, n), secret(&at, seed))
}

/// Puts the signature of `message` by leaf `q` of the tree of `i` and `seed` last. Where memory is
/// refused, a part of it may stand in `out`.
#[tactic(auto, using(crate::proofs::GatherLaws::gathered_begun, crate::proofs::GatherLaws::gathered_more, crate::proofs::GatherLaws::gathered_behind), unfolding(crate::specs::Formulas::ots_signature))]
pub fn put_signature(
    out: &mut Vec<u8>,
    kind: OtsKind,
    i: &[u8; 16],
    q: u32,
    seed: &[u8; 32],
    message: &[u8],
) -> Result<(), AllocError>
    ensures { OnOk result (out.new.items ≡ out.old.items ++ ots_signature kind i.now q seed.now message.now) }
{
    let c = randomizer(seed, i, q);
    let digits = digits_of(kind, &message_digest(i, q, &c, message));
    put_u32(out, kind.number())?;
    put_bytes(out, &c)?;
    'chains: for n in 0..kind.chains() {
        put_bytes(out, &element(kind, i, q, seed, &digits, n))?;
    }
    Ok(())
}

fn signature(
    alloc: Global,
    kind: OtsKind,
    i: &[u8; 16],
    q: u32,
    seed: &[u8; 32],
    message: &[u8],
) -> Result<Bytes, AllocError>
    ensures { IfOk result (λ seal. seal ≡ ots_signature kind i.now q seed.now message.now) }
{
    let mut out = Vec::with_capacity(alloc, kind.seal_length())?;
    put_signature(&mut out, kind, i, q, seed, message)?;
    Ok(Seq::from_vec(out))
}

/// The signature of `message` by leaf `q` of the tree of `i` and `seed`, of type `kind`: BadType exactly
/// where that is none of the four, else only OutOfMemory. A leaf is to be used for one message alone.
pub fn ots_seal(
    alloc: Global,
    kind: u32,
    i: &[u8; 16],
    q: u32,
    seed: &[u8; 32],
    message: &[u8],
) -> Result<Bytes, OtsError>
    ensures sealed { IfOk result (λ seal. IsSomeAnd (kind_of kind) (λ k. seal ≡ ots_signature k i.now q seed.now message.now)) }
    ensures bad_type { IsNone (kind_of kind) → result ≡ Err (errors.BadType kind) }
    ensures memory { IsSome (kind_of kind) → IsOkUnless result errors.OutOfMemory }
{
    match OtsKind::of(kind) {
        None => Err(OtsError::BadType { got: kind }),
        Some(set) => Ok(signature(alloc, set, i, q, seed, message)?),
    }
}
