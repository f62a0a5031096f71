ghost use Rattle.std.specs.Prelude.{◌≡◌, ◌*◌, ◌/◌, ◌%◌, ◌<◌, ◌≤◌, ◌++◌, Some, Err, IfOk, IfSome, OnOk, IsNone, IsSome, IsOkUnless};
ghost use Rattle.std.specs.Int.{w32};
ghost use Rattle.st_fields.specs.Spelling.{number};
ghost use Rattle.st_lms.specs.Kinds.{leaves_of};
ghost use Rattle.st_lms.specs.Formulas.{lms_signature};
ghost use Rattle.st_lms.specs.TreeSecrets.{secret_of};
ghost use Rattle.st_tables.specs.Entries.{entry};
ghost use Rattle.st_hss.specs.declared.error.HssError.TheVariants as errors;
ghost use Rattle.st_hss.specs.Formulas.{capacity_of, hss_key, hss_signature, second_front, second_secret, secret_for, kind_of_height, ots_of_width, levels_of};
ghost use Rattle.st_hss.specs.Kept.{KeepsSeconds};

use crate::error::HssError;
use crate::second::Second;
use crate::secret::{HssSecret, Levels};
use st_fields::{Bytes, Seq, Shared, put_u32};
use st_lmots::{OtsKind, joined_array};
use st_lms::{LmsKind, LmsSecret, Tree};
use st_tables::Table;
use std::alloc::{AllocError, Global};

/// A key of one or two levels. The first tree stands from the start; of two levels, the second tree under
/// each leaf of the first is made when it is first needed, and kept.
#[derive(Drop)]
pub struct HssKey {
    levels: Levels,
    first: Tree,
    seconds: Table<Second>,
    ghost few: { leaves_of (secret_of first).kind ≤ 1024 },
    ghost kept: { KeepsSeconds (secret_of first) seconds },
}

/// The set of trees of this height, of 5 or 10.
fn kind_of_height(height: u8) -> Option<LmsKind>
    ensures value { result ≡ kind_of_height height }
    ensures few { IfSome result (λ kind. leaves_of kind ≤ 1024) }
{
    match height {
        5 => Some(LmsKind::H5),
        10 => Some(LmsKind::H10),
        _ => None,
    }
}

/// The set of digits of this width, of 4 or 8 bits.
fn ots_of_width(width: u8) -> Option<OtsKind>
    ensures { result ≡ ots_of_width width }
{
    match width {
        4 => Some(OtsKind::W4),
        8 => Some(OtsKind::W8),
        _ => None,
    }
}

fn levels_of(levels: u8) -> Option<Levels>
    ensures { result ≡ levels_of levels }
{
    match levels {
        1 => Some(Levels::One),
        2 => Some(Levels::Two),
        _ => None,
    }
}

/// What a key of these choices is made from; None where one is no choice.
fn secret_for(height: u8, width: u8, levels: u8, i: &[u8; 16], seed: &[u8; 32]) -> Option<HssSecret>
    ensures value { result ≡ secret_for height width levels i.now seed.now }
    ensures few { IfSome result (λ s. leaves_of s.first.kind ≤ 1024) }
{
    match (
        kind_of_height(height),
        ots_of_width(width),
        levels_of(levels),
    ) {
        (Some(kind), Some(ots), Some(levels)) => Some(HssSecret {
            levels,
            first: LmsSecret {
                kind,
                ots,
                i: *i,
                seed: *seed,
            },
        }),
        _ => None,
    }
}

impl HssKey {
    ghost use Rattle.st_hss.specs.Keys.{hss_secret_of};

    /// The key of `i` and `seed`, of trees of this height (5 or 10), digits of this width (4 or 8) and this
    /// many levels (1 or 2): BadProfile exactly where one of these is another, else only OutOfMemory.
    pub fn new(
        alloc: Global,
        height: u8,
        width: u8,
        levels: u8,
        i: &[u8; 16],
        seed: &[u8; 32],
    ) -> Result<HssKey, HssError>
        ensures made { IfOk result (λ key. secret_for height width levels i.now seed.now ≡ Some (hss_secret_of key)) }
        ensures bad_profile { IsNone (secret_for height width levels i.now seed.now) → result ≡ Err errors.BadProfile }
        ensures memory { IsSome (secret_for height width levels i.now seed.now) → IsOkUnless result errors.OutOfMemory }
    {
        match secret_for(height, width, levels, i, seed) {
            None => Err(HssError::BadProfile),
            Some(secret) => HssKey::of(alloc, &secret),
        }
    }

    #[tactic(auto, using(crate::proofs::KeptLaws::none_kept))]
    fn of(alloc: Global, secret: &HssSecret) -> Result<HssKey, HssError>
        requires { leaves_of secret.now.first.kind ≤ 1024 }
        ensures made { IfOk result (λ key. hss_secret_of key ≡ secret.now) }
        ensures memory { IsOkUnless result errors.OutOfMemory }
    {
        let first = Tree::of(alloc, secret.first)?;
        match Table::new(alloc, 0) {
            Err(_) => Err(HssError::OutOfMemory),
            Ok(seconds) => Ok(HssKey {
                levels: secret.levels,
                first,
                seconds,
            }),
        }
    }

    /// How many seals there are: at most 2^20.
    #[tactic(auto, using(crate::proofs::KeptLaws::square_few))]
    pub fn capacity(&self) -> u32
        ensures { result ≡ capacity_of (hss_secret_of self.now) }
    {
        let leaves = self.first.secret().kind.leaves();
        match self.levels {
            Levels::One => leaves,
            Levels::Two => leaves * leaves,
        }
    }

    /// The public key. Takes no memory.
    #[tactic(auto, unfolding(crate::specs::Formulas::hss_key, st_fields::specs::Spelling::number))]
    pub fn public_key(&self) -> [u8; 60]
        ensures { result ≡ hss_key (hss_secret_of self.now) }
    {
        let levels: u32 = match self.levels {
            Levels::One => 1,
            Levels::Two => 2,
        };
        joined_array(&levels.to_be_bytes(), &self.first.public_key())
    }

    /// The seal of `message` with an index: Spent exactly where that is at least the number of seals, else
    /// only OutOfMemory. An index is to be used for one message alone. Once the trees stand, it costs one
    /// leaf's signature.
    #[tactic(auto, unfolding(crate::specs::Formulas::hss_signature))]
    pub fn seal_at(&mut self, alloc: Global, index: u32, message: &[u8]) -> Result<Bytes, HssError>
        ensures sealed { IfOk result (λ seal. seal ≡ hss_signature (hss_secret_of self.old) index message.now) }
        ensures spent { capacity_of (hss_secret_of self.old) ≤ index → result ≡ Err (errors.Spent index) }
        ensures memory { index < capacity_of (hss_secret_of self.old) → IsOkUnless result errors.OutOfMemory }
        ensures same { hss_secret_of self.new ≡ hss_secret_of self.old }
    {
        if index >= self.capacity() {
            return Err(HssError::Spent { index });
        }
        match self.levels {
            Levels::One => Ok(self.seal_one(alloc, index, message)?),
            Levels::Two => self.seal_two(alloc, index, message),
        }
    }

    fn seal_one(&self, alloc: Global, index: u32, message: &[u8]) -> Result<Bytes, AllocError>
        requires { index < leaves_of (secret_of self.now.first).kind }
        ensures { IfOk result (λ seal. seal ≡ number w32 0 ++ lms_signature (secret_of self.now.first) index message.now) }
    {
        let secret = self.first.secret();
        let length = 4 + secret.kind.seal_length(secret.ots);
        let mut out = Vec::with_capacity(alloc, length)?;
        put_u32(&mut out, 0)?;
        self.first.put_signature(&mut out, index, message)?;
        Ok(Seq::from_vec(out))
    }

    fn seal_two(&mut self, alloc: Global, index: u32, message: &[u8]) -> Result<Bytes, HssError>
        requires { index < leaves_of (secret_of self.old.first).kind * leaves_of (secret_of self.old.first).kind }
        ensures sealed { IfOk result (λ seal. seal ≡ second_front (secret_of self.old.first) (index / leaves_of (secret_of self.old.first).kind) ++ lms_signature (second_secret (secret_of self.old.first) (index / leaves_of (secret_of self.old.first).kind)) (index % leaves_of (secret_of self.old.first).kind) message.now) }
        ensures memory { IsOkUnless result errors.OutOfMemory }
        ensures same { hss_secret_of self.new ≡ hss_secret_of self.old }
    {
        let leaves = self.first.secret().kind.leaves();
        let q = index / leaves;
        self.keep_second(alloc, q)?;
        Ok(self.seal_below(alloc, q, index % leaves, message)?)
    }

    /// Makes the second tree under leaf `q`, unless it is kept.
    fn keep_second(&mut self, alloc: Global, q: u32) -> Result<(), HssError>
        requires { q < leaves_of (secret_of self.old.first).kind }
        ensures there { OnOk result (IsSome (entry self.new.seconds q)) }
        ensures same { hss_secret_of self.new ≡ hss_secret_of self.old }
        ensures memory { IsOkUnless result errors.OutOfMemory }
    {
        if self.seconds.get(q as usize).is_some() {
            return Ok(());
        }
        let second = shared(alloc, Second::new(alloc, &self.first, q)?)?;
        match self.seconds.put(q as usize, Some(second)) {
            Err(_) => Err(HssError::OutOfMemory),
            Ok(()) => Ok(()),
        }
    }

    /// The seal by a leaf of the second tree under leaf `q`, which is kept.
    fn seal_below(
        &self,
        alloc: Global,
        q: u32,
        leaf: u32,
        message: &[u8],
    ) -> Result<Bytes, AllocError>
        requires kept { IsSome (entry self.now.seconds q) }
        requires leaf { leaf < leaves_of (secret_of self.now.first).kind }
        ensures { IfOk result (λ seal. seal ≡ second_front (secret_of self.now.first) q ++ lms_signature (second_secret (secret_of self.now.first) q) leaf message.now) }
    {
        match self.seconds.get(q as usize) {
            None => unreachable!(),
            Some(second) => second.seal(alloc, leaf, message),
        }
    }
}

fn shared(alloc: Global, second: Second) -> Result<Shared<Second>, HssError>
    ensures same { IfOk result (λ shared. shared ≡ second) }
    ensures memory { IsOkUnless result errors.OutOfMemory }
{
    match Shared::new(alloc, second) {
        Ok(shared) => Ok(shared),
        Err(_) => Err(HssError::OutOfMemory),
    }
}
