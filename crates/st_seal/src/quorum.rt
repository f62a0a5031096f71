ghost use Rattle.std.specs.Prelude.{◌≡◌, [], ◌∷◌, ◌++◌, ◌<◌, All, length, slice_get, OnOk, OnErr, OnSome, IsOkUnless};
ghost use Rattle.std.specs.Option.{option_copied};
ghost use Rattle.st_fields.specs.declared.error.WordsError.TheVariants as words;

use st_fields::{Bytes, Copied, Same, Seq, WordsError};
use std::alloc::Global;
use std::marker::Model;

/// A server's seal: its index in its site, and the seal.
#[derive(Drop)]
pub struct Signed {
    pub index: u8,
    pub seal: Bytes,
}

impl Copied for Signed {
    fn copy(&self, alloc: Global) -> Result<Signed, WordsError> {
        Ok(Signed {
            index: self.index,
            seal: self.seal.copy(alloc)?,
        })
    }
}

impl Same for Signed {
    fn same(&self, other: &Signed) -> bool {
        self.index == other.index && self.seal.same(&other.seal)
    }
}

/// Seals of distinct servers of a site, by rising index.
#[derive(Drop)]
pub struct Quorum {
    shares: Seq<Signed>,
}

/// A list of quorums.
pub type Quorums = Seq<Quorum>;

impl Model for Quorum {
    ghost use Rattle.std.specs.Prelude.{List};
    ghost use Rattle.st_seal.specs.declared.quorum.Signed.{Signed};
    ghost use Rattle.st_seal.specs.Rising.{IsRisingFrom};

    ghost Value = { List Signed };

    ghost view = { λ q. q.shares };

    ghost invariant = { λ q. IsRisingFrom 0 q.shares };
}

impl Quorum {
    ghost use Rattle.st_seal.specs.Rising.{IsRisingFrom};

    /// The empty list. Takes no memory.
    pub fn new(alloc: Global) -> Quorum
        ensures { result ≡ [] }
    {
        Quorum {
            shares: Seq::new(alloc),
        }
    }

    /// Puts `share` last, whose index is above those before it. Where memory is refused the quorum is
    /// as before.
    pub fn push(&mut self, share: Signed) -> Result<(), WordsError>
        requires { All (λ s. s.index < share.index) self.old }
        ensures ok { OnOk result (self.new ≡ self.old ++ share ∷ []) }
        ensures err { OnErr result (self.new ≡ self.old) }
        ensures memory { IsOkUnless result words.OutOfMemory }
    {
        self.shares.push(share)?;
        Ok(())
    }

    /// The seals, by rising index.
    pub fn as_slice(&self) -> &[Signed]
        ensures same { result.now ≡ self.now }
        ensures rising { IsRisingFrom 0 self.now }
    {
        self.shares.as_slice()
    }

    /// How many seals there are.
    pub fn len(&self) -> usize
        ensures { result ≡ length self.now }
    {
        self.shares.len()
    }

    /// Seal `k`, from 0; None exactly where `k` is at least the length.
    pub fn get(&self, k: usize) -> Option<&Signed>
        ensures value { option_copied result ≡ slice_get self.now k }
        ensures within { OnSome result (k < length self.now) }
    {
        self.shares.get(k)
    }
}

impl Copied for Quorum {
    fn copy(&self, alloc: Global) -> Result<Quorum, WordsError> {
        let shares = self.shares.copy(alloc)?;
        Ok(Quorum { shares })
    }
}

impl Same for Quorum {
    fn same(&self, other: &Quorum) -> bool {
        self.shares.same(&other.shares)
    }
}
