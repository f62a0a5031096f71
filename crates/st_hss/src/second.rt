ghost use Rattle.std.specs.Prelude.{◌≡◌, ◌<◌, ◌∷◌, ◌++◌, take, IfOk};
ghost use Rattle.std.specs.Int.{w32};
ghost use Rattle.sha2.specs.Sha256.{sha256};
ghost use Rattle.st_fields.specs.Spelling.{number};
ghost use Rattle.st_lms.specs.Kinds.{leaves_of};
ghost use Rattle.st_lms.specs.Formulas.{lms_signature};
ghost use Rattle.st_lms.specs.TreeSecrets.{secret_of};
ghost use Rattle.st_hss.specs.Formulas.{second_secret};

use sha2::{Digest, Sha256};
use st_fields::{Bytes, Seq, put_bytes, put_u32};
use st_lms::{LmsSecret, Tree};
use std::alloc::{AllocError, Global};

/// A second tree, and what stands before each of its signatures.
#[derive(Drop)]
pub(crate) struct Second {
    front: Bytes,
    tree: Tree,
}

/// The digest of a byte, a seed, and a leaf's number.
#[tactic(auto, unfolding(st_fields::specs::Spelling::number))]
fn derived(first: u8, seed: &[u8; 32], q: u32) -> [u8; 32]
    ensures { result ≡ sha256 ((first ∷ seed.now) ++ number w32 q) }
{
    let mut hasher = Sha256::new();
    hasher.update(&[first]);
    hasher.update(seed);
    hasher.update(&q.to_be_bytes());
    hasher.finalize()
}

/// The first 16 bytes of a digest.
fn first_half(digest: &[u8; 32]) -> [u8; 16]
    ensures { result ≡ take 16 digest.now }
{
    let mut half = [0; 16];
    half.copy_from_slice(&digest[..16]);
    half
}

/// What the second tree under leaf `q` of the first is made from.
#[tactic(auto, unfolding(crate::specs::Formulas::second_secret))]
fn second_secret(first: &LmsSecret, q: u32) -> LmsSecret
    ensures { result ≡ second_secret first.now q }
{
    LmsSecret {
        kind: first.kind,
        ots: first.ots,
        i: first_half(&derived(4, &first.seed, q)),
        seed: derived(3, &first.seed, q),
    }
}

impl Second {
    ghost use Rattle.st_hss.specs.Kept.{IsSecond};

    /// The second tree under leaf `q` of the first, whose key that leaf seals.
    #[tactic(auto, unfolding(crate::specs::Formulas::second_front))]
    pub(crate) fn new(alloc: Global, first: &Tree, q: u32) -> Result<Second, AllocError>
        requires { q < leaves_of (secret_of first.now).kind }
        ensures { IfOk result (IsSecond (secret_of first.now) q) }
    {
        let tree = Tree::of(alloc, second_secret(first.secret(), q))?;
        let key = tree.public_key();
        let mut front = Vec::new(alloc);
        put_u32(&mut front, 1)?;
        first.put_signature(&mut front, q, &key)?;
        put_bytes(&mut front, &key)?;
        Ok(Second {
            front: Seq::from_vec(front),
            tree,
        })
    }

    /// The signature of `message` by a leaf of this tree, with what stands before it.
    pub(crate) fn seal(&self, alloc: Global, leaf: u32, message: &[u8]) -> Result<Bytes, AllocError>
        requires { leaf < leaves_of (secret_of self.now.tree).kind }
        ensures { IfOk result (λ seal. seal ≡ self.now.front ++ lms_signature (secret_of self.now.tree) leaf message.now) }
    {
        let secret = self.tree.secret();
        let length = secret.kind.seal_length(secret.ots);
        let mut out = Vec::with_capacity(alloc, self.front.len().saturating_add(length))?;
        put_bytes(&mut out, self.front.as_slice())?;
        self.tree.put_signature(&mut out, leaf, message)?;
        Ok(Seq::from_vec(out))
    }
}
