ghost use Rattle.std.specs.Prelude.{◌≡◌, ℕ};

use crate::certificate::{quorum_holds, signed_checks};
use crate::quorum::Quorum;
use crate::sealer::Check;
use st_words::SiteId;

/// Whether a quorum is a site's word on bytes.
pub trait Voice {
    ghost use Rattle.st_seal.specs.Pen.{Checks};
    ghost use Rattle.st_seal.specs.Voices.{Speaks, IsHeard};
    ghost use Rattle.st_words.specs.declared.ids.SiteId.{SiteId as TheSite};

    /// The check of the servers' seals.
    ghost checks: { Self → Checks };

    /// How many servers of a site may be faulty: it has three times as many and one.
    ghost faulty: { Self → TheSite → ℕ };

    ghost speaks: { Self → Speaks };

    /// Whether the quorum is the site's word on these bytes. Takes no memory.
    fn holds(&self, site: SiteId, bytes: &[u8], quorum: &Quorum) -> bool
        ensures { result ≡ speaks self.now site bytes.now quorum.now };

    ghost heard: { (v : Self) → IsHeard (checks v) (faulty v) (speaks v) };
}

/// A site speaks by certificates, where `f` of its 3f+1 servers may be faulty.
#[derive(Drop)]
pub struct SiteVoice<'a, C: Check> {
    pub check: &'a C,
    pub f: u8,
}

/// A site with one server, which is trusted, speaks by that server's seal.
#[derive(Drop)]
pub struct SoloVoice<'a, C: Check> {
    pub check: &'a C,
}

impl<C: Check> Voice for SiteVoice<'_, C> {
    ghost use Rattle.st_seal.specs.Certificates.{is_certificate};
    ghost use Rattle.st_seal.specs.VoiceLaws.{certificate_heard};

    ghost checks = { λ v. C.checks v.check.now };

    ghost faulty = { λ v _. v.f };

    ghost speaks = { λ v. is_certificate (C.checks v.check.now) v.f };

    ghost heard = { λ v. certificate_heard (C.checks v.check.now) v.f };

    fn holds(&self, site: SiteId, bytes: &[u8], quorum: &Quorum) -> bool {
        quorum_holds(self.check, self.f, site, bytes, quorum)
    }
}

impl<C: Check> Voice for SoloVoice<'_, C> {
    ghost use Rattle.st_seal.specs.Certificates.{is_solo};
    ghost use Rattle.st_seal.specs.VoiceLaws.{solo_heard};

    ghost checks = { λ v. C.checks v.check.now };

    ghost faulty = { λ _ _. 0 };

    ghost speaks = { λ v. is_solo (C.checks v.check.now) };

    ghost heard = { λ v. solo_heard (C.checks v.check.now) };

    fn holds(&self, site: SiteId, bytes: &[u8], quorum: &Quorum) -> bool {
        match quorum.as_slice() {
            [only] => only.index == 0 && signed_checks(self.check, site, bytes, only),
            _ => false,
        }
    }
}
