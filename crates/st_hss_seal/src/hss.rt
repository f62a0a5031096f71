ghost use Rattle.std.specs.Prelude.{◌≡◌, ◌≤◌, ◌<◌, Some, IfOk, IsOkUnless, IsTrue};
ghost use Rattle.std.specs.Option.{option_copied};
ghost use Rattle.st_seal.specs.Scheme.{is_party};
ghost use Rattle.st_seal.specs.declared.sealer.SealError.TheVariants as errors;
ghost use Rattle.st_hss.specs.Keys.{hss_secret_of};
ghost use Rattle.st_hss_seal.specs.Keys.{is_choice};
ghost use Rattle.st_hss_seal.specs.Schemes.{scheme_of_hss};
ghost use Rattle.st_hss_seal.specs.Kept.{KeepsKeys, key_of, secret_in};
ghost use Rattle.st_hss_seal.specs.Sealing.{holds_in, pen_in};

use crate::scheme::{HssScheme, place_of};
use st_fields::Bytes;
use st_hss::{HssKey, hss_check};
use st_seal::{Check, SealError, Sealer};
use st_tables::Table;
use st_words::Who;
use std::alloc::Global;

/// The check of the seals of HSS keys: it keeps each party's public key.
#[derive(Drop)]
pub struct HssSeals {
    scheme: HssScheme,
    keys: Table<[u8; 60]>,
    ghost choice: { IsTrue (is_choice (scheme_of_hss scheme).kind) },
    ghost kept: { KeepsKeys scheme keys },
}

/// The HSS seals of one party.
#[derive(Drop)]
pub struct HssSealer {
    scheme: HssScheme,
    who: Who,
    key: HssKey,
    ghost choice: { IsTrue (is_choice (scheme_of_hss scheme).kind) },
    ghost party: { IsTrue (is_party (scheme_of_hss scheme) who) },
    ghost made: { secret_in scheme who ≡ Some (hss_secret_of key) },
}

impl HssSeals {
    ghost use Rattle.st_hss_seal.specs.Sealers.{hss_pen_of};

    pub(crate) fn new(alloc: Global, scheme: HssScheme) -> Result<HssSeals, SealError>
        requires { IsTrue (is_choice (scheme_of_hss scheme).kind) }
        ensures same { IfOk result (λ seals. seals.scheme ≡ scheme) }
        ensures memory { IsOkUnless result errors.OutOfMemory }
    {
        let keys = scheme.public_keys(alloc)?;
        Ok(HssSeals { scheme, keys })
    }

    pub(crate) fn has(&self, who: Who) -> bool
        ensures { result ≡ is_party (scheme_of_hss self.now.scheme) who }
    {
        self.scheme.has(who)
    }

    /// The public key of a party.
    #[tactic(auto, using(crate::proofs::KeyLaws::kept_at))]
    fn key(&self, who: Who) -> Option<&[u8; 60]>
        ensures { option_copied result ≡ key_of self.now.scheme who }
    {
        self.keys.get(place_of(who))
    }

    pub(crate) fn sealer(&self, alloc: Global, who: Who) -> Result<HssSealer, SealError>
        requires { IsTrue (is_party (scheme_of_hss self.now.scheme) who) }
        ensures pen { IfOk result (λ sealer. hss_pen_of sealer ≡ pen_in (scheme_of_hss self.now.scheme) who) }
        ensures memory { IsOkUnless result errors.OutOfMemory }
    {
        let key = self.scheme.own_key(alloc, who)?;
        Ok(HssSealer {
            scheme: self.scheme,
            who,
            key,
        })
    }
}

impl Check for HssSeals {
    ghost checks = { λ s. holds_in (scheme_of_hss s.scheme) };

    #[tactic(auto, unfolding(crate::specs::Sealing::hss_holds, crate::specs::Kept::key_of))]
    fn check(&self, who: Who, bytes: &[u8], seal: &[u8]) -> bool {
        match self.key(who) {
            None => false,
            Some(key) => hss_check(key, bytes, seal),
        }
    }
}

impl Sealer for HssSealer {
    ghost use Rattle.st_hss_seal.specs.SealingLaws.{pens_are_sound};
    ghost use Rattle.st_hss_seal.specs.Sealers.{hss_pen_of};

    ghost pen = { hss_pen_of };

    ghost sound = { λ s. pens_are_sound (scheme_of_hss s.scheme) s.who s.choice s.party };

    #[tactic(auto, unfolding(crate::specs::Sealing::hss_sealed_by))]
    fn seal(&mut self, alloc: Global, leaf: u32, bytes: &[u8]) -> Result<Bytes, SealError> {
        if leaf >= self.capacity() {
            return Err(SealError::Spent { leaf });
        }
        match self.key.seal_at(alloc, leaf, bytes) {
            Ok(seal) => Ok(seal),
            Err(_) => Err(SealError::OutOfMemory),
        }
    }

    fn capacity(&self) -> u32 {
        self.key.capacity()
    }
}
