ghost use Rattle.std.specs.Prelude.{◌≡◌, ◌+◌, ◌^◌, ◌<◌, ◌≤◌, ◌++◌, IfOk, IfErr, IsOk, OnOk, IsOkUnless, Ok, Err, vec_len};
ghost use Rattle.st_lms.specs.declared.error.LmsError.TheVariants as errors;
ghost use Rattle.st_lms.specs.Kinds.{height_of, leaves_of};
ghost use Rattle.st_lms.specs.Formulas.{path_from, lms_key, lms_signature, sibling};
ghost use Rattle.st_lms.specs.Trees.{IsBuilt, secret_answer};

use crate::error::LmsError;
use crate::kind::{made_kind, made_ots};
use crate::nodes::fill;
use crate::secret::LmsSecret;
use st_fields::{Bytes, Seq, put_bytes, put_u32};
use st_lmots::{joined_array, put_signature};
use std::alloc::{AllocError, Global};

/// A tree, with each of its nodes at its number: the root is node 1, and place 0 is free.
#[derive(Drop)]
pub struct Tree {
    secret: LmsSecret,
    nodes: Vec<[u8; 32]>,
    ghost built: { IsBuilt secret nodes.items },
}

impl Tree {
    ghost use Rattle.st_lms.specs.TreeSecrets.{secret_of};

    /// The tree of `i` and `seed`, of LMS type 5 or 6 and LM-OTS type 3 or 4: BadType exactly where either
    /// is another, else only OutOfMemory.
    pub fn build(
        alloc: Global,
        kind: u32,
        ots: u32,
        i: &[u8; 16],
        seed: &[u8; 32],
    ) -> Result<Tree, LmsError>
        ensures built { IfOk result (λ tree. secret_answer kind ots i.now seed.now ≡ Ok (secret_of tree)) }
        ensures bad_type { IfErr (secret_answer kind ots i.now seed.now) (λ e. result ≡ Err e) }
        ensures memory { IsOk (secret_answer kind ots i.now seed.now) → IsOkUnless result errors.OutOfMemory }
    {
        match (made_kind(kind), made_ots(ots)) {
            (None, _) => Err(LmsError::BadType { got: kind }),
            (Some(_), None) => Err(LmsError::BadType { got: ots }),
            (Some(kind), Some(ots)) => Ok(Tree::of(
                alloc,
                LmsSecret {
                    kind,
                    ots,
                    i: *i,
                    seed: *seed,
                },
            )?),
        }
    }

    /// The tree of a secret.
    pub fn of(alloc: Global, secret: LmsSecret) -> Result<Tree, AllocError>
        ensures { IfOk result (λ tree. secret_of tree ≡ secret) }
    {
        let count = 2 * secret.kind.leaves() as usize;
        let mut nodes = zeros(alloc, count)?;
        fill(&secret, &mut nodes);
        Ok(Tree { secret, nodes })
    }

    /// What the tree was made from.
    pub fn secret(&self) -> &LmsSecret
        ensures { result.now ≡ secret_of self.now }
    {
        &self.secret
    }

    /// The signature of `message` by leaf `q`: BadLeaf exactly where the tree has no such leaf, else only
    /// OutOfMemory. A leaf is to be used for one message alone.
    pub fn seal_leaf(&self, alloc: Global, q: u32, message: &[u8]) -> Result<Bytes, LmsError>
        ensures sealed { IfOk result (λ seal. seal ≡ lms_signature (secret_of self.now) q message.now) }
        ensures bad_leaf { leaves_of (secret_of self.now).kind ≤ q → result ≡ Err (errors.BadLeaf q) }
        ensures memory { q < leaves_of (secret_of self.now).kind → IsOkUnless result errors.OutOfMemory }
    {
        if q >= self.secret.kind.leaves() {
            return Err(LmsError::BadLeaf { q });
        }
        Ok(self.signature(alloc, q, message)?)
    }

    fn signature(&self, alloc: Global, q: u32, message: &[u8]) -> Result<Bytes, AllocError>
        requires { q < leaves_of self.now.secret.kind }
        ensures { IfOk result (λ seal. seal ≡ lms_signature self.now.secret q message.now) }
    {
        let length = self.secret.kind.seal_length(self.secret.ots);
        let mut out = Vec::with_capacity(alloc, length)?;
        self.put_signature(&mut out, q, message)?;
        Ok(Seq::from_vec(out))
    }

    /// Puts the signature of `message` by leaf `q` last. Where memory is refused, a part of it may stand in
    /// `out`.
    #[tactic(auto, using(crate::proofs::PathLaws::five_parts), unfolding(crate::specs::Formulas::lms_signature))]
    pub fn put_signature(&self, out: &mut Vec<u8>, q: u32, message: &[u8]) -> Result<(), AllocError>
        requires { q < leaves_of (secret_of self.now).kind }
        ensures { OnOk result (out.new.items ≡ out.old.items ++ lms_signature (secret_of self.now) q message.now) }
    {
        let secret = &self.secret;
        put_u32(out, q)?;
        put_signature(out, secret.ots, &secret.i, q, &secret.seed, message)?;
        put_u32(out, secret.kind.number())?;
        self.put_path(out, q)?;
        Ok(())
    }

    /// Puts the path of leaf `q` last.
    #[tactic(auto, using(crate::proofs::PathLaws::level_up, crate::proofs::TreeLaws::leaves_few))]
    fn put_path(&self, out: &mut Vec<u8>, q: u32) -> Result<(), AllocError>
        requires { q < leaves_of self.now.secret.kind }
        ensures { OnOk result (out.new.items ≡ out.old.items ++ path_from self.now.secret (height_of self.now.secret.kind) (leaves_of self.now.secret.kind + q)) }
    {
        let mut r = (self.secret.kind.leaves() + q) as usize;
        for k in 0..self.secret.kind.height() {
            put_bytes(out, &self.nodes[sibling(r)])?;
            r /= 2;
        }
        Ok(())
    }

    /// The public key. Takes no memory.
    #[tactic(auto, unfolding(crate::specs::Formulas::lms_key, st_fields::specs::Spelling::number))]
    pub fn public_key(&self) -> [u8; 56]
        ensures { result ≡ lms_key (secret_of self.now) }
    {
        let secret = &self.secret;
        let types: [u8; 8] = joined_array(
            &secret.kind.number().to_be_bytes(),
            &secret.ots.number().to_be_bytes(),
        );
        let front: [u8; 24] = joined_array(&types, &secret.i);
        joined_array(&front, &self.nodes[1])
    }
}

/// The other node below the parent of node `r`.
fn sibling(r: usize) -> usize
    requires { (1 ≤ r) × (r < 2 ^ 32) }
    ensures { result ≡ sibling r }
{
    if r % 2 == 1 { r - 1 } else { r + 1 }
}

/// As many nodes of zeros.
fn zeros(alloc: Global, count: usize) -> Result<Vec<[u8; 32]>, AllocError>
    ensures { IfOk result (λ nodes. vec_len nodes ≡ count) }
{
    let mut nodes = Vec::new(alloc);
    nodes.resize(count, [0; 32])?;
    Ok(nodes)
}
