ghost use Rattle.std.specs.Prelude.{◌≡◌, ◌+◌, ◌*◌, ◌++◌, ◌<◌, All, IfOk, IfSome, OnOk, OnErr, IsOkUnless, None, false, is_some};
ghost use Rattle.std.specs.Option.{option_copied};
ghost use Rattle.st_seal.specs.Collecting.{shares_of, says, agreeing, is_backed, is_complete, share_of, with_share, seal_over, seals_below, slot_of, listed, kept_answer, answer_to, kept_after, IsCertifying};
ghost use Rattle.st_fields.specs.declared.error.WordsError.TheVariants as words;
ghost use Rattle.st_seal.specs.declared.sealer.SealError.TheVariants as seals;

use crate::quorum::{Quorum, Signed};
use crate::sealer::SealError;
use st_fields::{Bytes, Copied, Seq, WordsError};
use st_words::SiteId;
use std::alloc::Global;

/// What a server sealed in a slot, and its seal.
#[derive(Drop)]
pub(crate) struct Share {
    index: u8,
    bytes: Bytes,
    seal: Bytes,
}

/// The shares of one slot of one site: at most one of each server, until a quorum's are over the same
/// bytes.
#[derive(Drop)]
pub struct Collector {
    site: SiteId,
    f: u8,
    shares: Seq<Share>,
}

/// What a collector answers to a share.
#[derive(Drop)]
pub enum Added {
    /// It is kept, and with it these 2f+1 seals are over its bytes.
    Complete(Quorum),
    /// It is kept, and fewer are over its bytes.
    Kept,
    /// This server's share is kept, or the slot is complete.
    Seen,
    /// The index is no server's.
    NotServer,
}

impl Copied for Share {
    fn copy(&self, alloc: Global) -> Result<Share, WordsError> {
        Ok(Share {
            index: self.index,
            bytes: self.bytes.copy(alloc)?,
            seal: self.seal.copy(alloc)?,
        })
    }
}

impl Collector {
    /// No share is kept yet. Takes no memory.
    #[tactic(auto, unfolding(crate::specs::Collecting::share_in))]
    pub fn new(alloc: Global, site: SiteId, f: u8) -> Collector
        ensures slot { slot_of result ≡ (site, f) }
        ensures empty { shares_of result ≡ (λ _. None) }
    {
        Collector {
            site,
            f,
            shares: Seq::new(alloc),
        }
    }

    /// How many servers the site has.
    fn servers(&self) -> u16
        ensures { result ≡ 3 * self.now.f + 1 }
    {
        3 * u16::from(self.f) + 1
    }

    /// What `add` would answer. The one error is OutOfMemory.
    pub fn look(&self, alloc: Global, bytes: &[u8], signed: &Signed) -> Result<Added, SealError>
        ensures answer { IfOk result (λ added. added ≡ answer_to (slot_of self.now).1 (shares_of self.now) bytes.now signed.now) }
        ensures certificate { IfOk result (IsCertifying (slot_of self.now) bytes.now) }
        ensures memory { IsOkUnless result seals.OutOfMemory }
    {
        let added = self.answer(alloc, bytes, signed)?;
        Ok(added)
    }

    /// Keeps a share, unless it is of no server, that server's second, or of a complete slot; Complete in
    /// the call after which 2f+1 kept shares are over these bytes, with their seals. It checks no seal:
    /// where each of those checks, they are the site's certificate. The one error is OutOfMemory, and
    /// it leaves the collector as before.
    pub fn add(&mut self, alloc: Global, bytes: &[u8], signed: &Signed) -> Result<Added, SealError>
        ensures answer { IfOk result (λ added. added ≡ answer_to (slot_of self.old).1 (shares_of self.old) bytes.now signed.now) }
        ensures certificate { IfOk result (IsCertifying (slot_of self.old) bytes.now) }
        ensures kept { OnOk result (shares_of self.new ≡ kept_after (slot_of self.old).1 (shares_of self.old) bytes.now signed.now) }
        ensures slot { slot_of self.new ≡ slot_of self.old }
        ensures err { OnErr result (self.new ≡ self.old) }
        ensures memory { IsOkUnless result seals.OutOfMemory }
    {
        let added = self.look(alloc, bytes, signed)?;
        if !matches!(added, Added::NotServer | Added::Seen) {
            if self.keep(alloc, bytes, signed).is_err() {
                return Err(SealError::OutOfMemory);
            }
        }
        Ok(added)
    }

    /// An equal collector. The one error is OutOfMemory.
    pub fn copy(&self, alloc: Global) -> Result<Collector, SealError>
        ensures equal { IfOk result (λ copy. copy ≡ self.now) }
        ensures memory { IsOkUnless result seals.OutOfMemory }
    {
        match Copied::copy(self, alloc) {
            Ok(copy) => Ok(copy),
            Err(_) => Err(SealError::OutOfMemory),
        }
    }

    /// Puts a share last.
    #[tactic(auto, using(crate::proofs::CollectingLaws::share_last))]
    fn keep(&mut self, alloc: Global, bytes: &[u8], signed: &Signed) -> Result<(), WordsError>
        requires { shares_of self.old signed.now.index ≡ None }
        ensures kept { OnOk result (shares_of self.new ≡ with_share (shares_of self.old) (share_of bytes.now signed.now)) }
        ensures slot { slot_of self.new ≡ slot_of self.old }
        ensures err { OnErr result (self.new ≡ self.old) }
    {
        let share = Share {
            index: signed.index,
            bytes: Seq::from_slice(alloc, bytes)?,
            seal: signed.seal.copy(alloc)?,
        };
        self.shares.push(share)?;
        Ok(())
    }

    fn answer(&self, alloc: Global, bytes: &[u8], signed: &Signed) -> Result<Added, SealError>
        ensures answer { IfOk result (λ added. added ≡ answer_to (slot_of self.now).1 (shares_of self.now) bytes.now signed.now) }
        ensures memory { IsOkUnless result seals.OutOfMemory }
    {
        let index = u16::from(signed.index);
        if index >= self.servers() {
            return Ok(Added::NotServer);
        }
        if self.share(index).is_some() || self.is_complete() {
            return Ok(Added::Seen);
        }
        self.answer_kept(alloc, bytes, signed)
    }

    /// The answer to a share that is kept.
    #[tactic(auto, using(crate::proofs::CompleteLaws::kept_few, crate::proofs::CompleteLaws::kept_many, crate::proofs::CompleteLaws::none_is))]
    fn answer_kept(&self, alloc: Global, bytes: &[u8], signed: &Signed) -> Result<Added, SealError>
        requires server { signed.now.index < 3 * self.now.f + 1 }
        requires unseen { is_some (shares_of self.now signed.now.index) ≡ false }
        ensures answer { IfOk result (λ added. added ≡ kept_answer self.now.f (with_share (shares_of self.now) (share_of bytes.now signed.now)) bytes.now) }
        ensures memory { IsOkUnless result seals.OutOfMemory }
    {
        // With this share there is one more.
        if self.agreeing(bytes) < 2 * u16::from(self.f) {
            return Ok(Added::Kept);
        }
        match self.completed(alloc, bytes, signed) {
            Ok(quorum) => Ok(Added::Complete(quorum)),
            Err(_) => Err(SealError::OutOfMemory),
        }
    }

    /// The share of the server of this index.
    #[tactic(auto, using(crate::proofs::CollectingLaws::share_own), unfolding(crate::specs::Collecting::share_in))]
    fn share(&self, index: u16) -> Option<&Share>
        ensures kept { option_copied result ≡ shares_of self.now index }
        ensures own { IfSome result (λ share. share.now.index ≡ index) }
    {
        self.shares
            .as_slice()
            .iter()
            .find(|share| u16::from(share.index) == index)
    }

    /// How many servers' shares are over these bytes.
    #[tactic(auto, using(crate::proofs::CollectingLaws::count_more), unfolding(crate::specs::Collecting::agreeing, crate::specs::Voices::count_below))]
    fn agreeing(&self, bytes: &[u8]) -> u16
        ensures { result ≡ agreeing self.now.f (shares_of self.now) bytes.now }
    {
        let mut count = 0;
        for i in 0..self.servers() {
            if is_over(self.share(i), bytes) {
                count += 1;
            }
        }
        count
    }

    /// Whether a quorum's shares are over the bytes of this one.
    fn is_backed(&self, share: Option<&Share>) -> bool
        ensures { result ≡ is_backed self.now.f (shares_of self.now) (option_copied share.entry) }
    {
        match share {
            None => false,
            Some(share) => self.agreeing(share.bytes.as_slice()) >= 2 * u16::from(self.f) + 1,
        }
    }

    /// Whether a quorum's shares are over the same bytes.
    #[tactic(auto, using(crate::proofs::CollectingLaws::some_more), unfolding(crate::specs::Collecting::is_complete, crate::specs::Collecting::some_below))]
    fn is_complete(&self) -> bool
        ensures { result ≡ is_complete self.now.f (shares_of self.now) }
    {
        let mut complete = false;
        for i in 0..self.servers() {
            complete = complete || self.is_backed(self.share(i));
        }
        complete
    }

    /// The seal over these bytes of the server of this index, once this share is kept too.
    fn seal_at(
        &self,
        alloc: Global,
        index: u16,
        bytes: &[u8],
        signed: &Signed,
    ) -> Result<Option<Signed>, WordsError>
        ensures seal { IfOk result (λ seal. listed seal ≡ seal_over bytes.now index (with_share (shares_of self.now) (share_of bytes.now signed.now) index)) }
        ensures own { IfOk result (λ seal. IfSome seal (λ s. s.index ≡ index)) }
        ensures memory { IsOkUnless result words.OutOfMemory }
    {
        if u16::from(signed.index) == index {
            return Ok(Some(signed.copy(alloc)?));
        }
        match self.share(index) {
            Some(share) if share.bytes.as_slice() == bytes => Ok(Some(Signed {
                index: share.index,
                seal: share.seal.copy(alloc)?,
            })),
            _ => Ok(None),
        }
    }

    /// The seals over these bytes, once this share is kept too.
    #[tactic(auto, using(crate::proofs::CollectingLaws::seals_more), unfolding(crate::specs::Collecting::seals_below))]
    fn completed(&self, alloc: Global, bytes: &[u8], signed: &Signed) -> Result<Quorum, WordsError>
        ensures seals { IfOk result (λ quorum. quorum ≡ seals_below bytes.now (with_share (shares_of self.now) (share_of bytes.now signed.now)) (3 * self.now.f + 1)) }
        ensures memory { IsOkUnless result words.OutOfMemory }
    {
        let mut quorum = Quorum::new(alloc);
        for i in 0..self.servers() {
            put(&mut quorum, self.seal_at(alloc, i, bytes, signed)?)?;
        }
        Ok(quorum)
    }
}

impl Copied for Collector {
    fn copy(&self, alloc: Global) -> Result<Collector, WordsError> {
        Ok(Collector {
            site: self.site,
            f: self.f,
            shares: self.shares.copy(alloc)?,
        })
    }
}

/// Puts a seal last, if there is one.
fn put(quorum: &mut Quorum, seal: Option<Signed>) -> Result<(), WordsError>
    requires { IfSome seal (λ s. All (λ t. t.index < s.index) quorum.old) }
    ensures ok { OnOk result (quorum.new ≡ quorum.old ++ listed seal) }
    ensures memory { IsOkUnless result words.OutOfMemory }
{
    if let Some(seal) = seal {
        quorum.push(seal)?;
    }
    Ok(())
}

/// Whether the share is over these bytes.
fn is_over(share: Option<&Share>, bytes: &[u8]) -> bool
    ensures { result ≡ says bytes.now (option_copied share.entry) }
{
    match share {
        None => false,
        Some(share) => share.bytes.as_slice() == bytes,
    }
}
