ghost use Rattle.std.specs.Prelude.{◌≡◌, IfOk, IsOkUnless, IsTrue};
ghost use Rattle.st_seal.specs.Scheme.{scheme_of, is_party};
ghost use Rattle.st_seal.specs.Pen.{Accepts};
ghost use Rattle.st_seal.specs.declared.sealer.SealError.TheVariants as errors;
ghost use Rattle.st_hss_seal.specs.Keys.{is_choice};
ghost use Rattle.st_hss_seal.specs.Sealing.{holds_in, pen_in};
ghost use Rattle.st_hss_seal.specs.Sealers.{scheme_in, pen_of, sound_of};

use crate::hss::{HssSealer, HssSeals};
use crate::scheme::HssScheme;
use st_fields::Bytes;
use st_seal::{Check, KeyedSealer, KeyedSeals, SealError, Sealer};
use st_words::{Deployment, SealKind, Who};
use std::alloc::Global;

/// The check of a deployment's seals, by their kind.
#[derive(Drop)]
pub enum DeploymentSeals {
    Keyed(KeyedSeals),
    Hss(HssSeals),
}

/// The seals of one party of a deployment, by their kind.
#[derive(Drop)]
pub enum PartySealer {
    Keyed(KeyedSealer),
    Hss(HssSealer),
}

/// Whether seals of this kind are made: keyed ones are, and those of HSS keys of height 5 or 10, width 4 or 8
/// and 1 or 2 levels.
pub fn is_choice(kind: SealKind) -> bool
    ensures { result ≡ is_choice kind }
{
    match kind {
        SealKind::Keyed => true,
        SealKind::Hss {
            height,
            width,
            levels,
        } => {
            (height == 5 || height == 10)
                && (width == 4 || width == 8)
                && (levels == 1 || levels == 2)
        }
    }
}

impl DeploymentSeals {
    /// The seals of a deployment's parties; never Spent. For HSS seals this makes the first tree of each
    /// party, which takes time: a tree of height 10 and width 8 is some nine million hashes.
    pub fn new(alloc: Global, d: &Deployment) -> Result<DeploymentSeals, SealError>
        requires { IsTrue (is_choice d.now.seals) }
        ensures scheme { IfOk result (λ seals. scheme_in seals ≡ scheme_of d.now) }
        ensures memory { IsOkUnless result errors.OutOfMemory }
    {
        match d.seals {
            SealKind::Keyed => Ok(DeploymentSeals::Keyed(KeyedSeals::new(d))),
            SealKind::Hss {
                height,
                width,
                levels,
            } => {
                let scheme = HssScheme {
                    sites: d.sites,
                    f: d.f,
                    clients: d.clients,
                    height,
                    width,
                    levels,
                    seed: d.seed,
                };
                Ok(DeploymentSeals::Hss(HssSeals::new(alloc, scheme)?))
            }
        }
    }

    /// Whether `who` is a party of the deployment.
    pub fn has(&self, who: Who) -> bool
        ensures { result ≡ is_party (scheme_in self.now) who }
    {
        match self {
            DeploymentSeals::Keyed(seals) => seals.has(who),
            DeploymentSeals::Hss(seals) => seals.has(who),
        }
    }

    /// The sealer of a party of the deployment; never Spent. For HSS seals this makes the party's first tree.
    pub fn sealer(&self, alloc: Global, who: Who) -> Result<PartySealer, SealError>
        requires { IsTrue (is_party (scheme_in self.now) who) }
        ensures pen { IfOk result (λ sealer. pen_of sealer ≡ pen_in (scheme_in self.now) who) }
        ensures memory { IsOkUnless result errors.OutOfMemory }
    {
        match self {
            DeploymentSeals::Keyed(seals) => Ok(PartySealer::Keyed(seals.sealer(who))),
            DeploymentSeals::Hss(seals) => Ok(PartySealer::Hss(seals.sealer(alloc, who)?)),
        }
    }
}

impl Check for DeploymentSeals {
    ghost checks = { λ s. holds_in (scheme_in s) };

    fn check(&self, who: Who, bytes: &[u8], seal: &[u8]) -> bool {
        match self {
            DeploymentSeals::Keyed(seals) => seals.check(who, bytes, seal),
            DeploymentSeals::Hss(seals) => seals.check(who, bytes, seal),
        }
    }
}

impl Sealer for PartySealer {
    ghost pen = { pen_of };

    ghost sound = { sound_of };

    fn seal(&mut self, alloc: Global, leaf: u32, bytes: &[u8]) -> Result<Bytes, SealError> {
        match self {
            PartySealer::Keyed(sealer) => sealer.seal(alloc, leaf, bytes),
            PartySealer::Hss(sealer) => sealer.seal(alloc, leaf, bytes),
        }
    }

    fn capacity(&self) -> u32 {
        match self {
            PartySealer::Keyed(sealer) => sealer.capacity(),
            PartySealer::Hss(sealer) => sealer.capacity(),
        }
    }
}
