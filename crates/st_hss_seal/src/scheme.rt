ghost use Rattle.std.specs.Prelude.{◌≡◌, ℕ, ◌<◌, IfOk, IsOkUnless, IsTrue, Some};
ghost use Rattle.st_seal.specs.Scheme.{is_party};
ghost use Rattle.st_seal.specs.declared.sealer.SealError.TheVariants as errors;
ghost use Rattle.st_hss.specs.Formulas.{hss_key};
ghost use Rattle.st_hss.specs.Keys.{hss_secret_of};
ghost use Rattle.st_hss_seal.specs.Keys.{is_choice};
ghost use Rattle.st_hss_seal.specs.Schemes.{scheme_of_hss};
ghost use Rattle.st_hss_seal.specs.Kept.{place_of, party_at, places_of, secret_in, key_of, KeepsKeys};

use crate::party::{identifier_of, secret_of};
use st_fields::Shared;
use st_hss::{HssError, HssKey};
use st_seal::SealError;
use st_tables::Table;
use st_words::{ClientId, ServerId, Who};
use std::alloc::Global;

/// What the HSS keys of a deployment's parties are made from. It has no `Debug`, so that no text shows the
/// seed.
#[derive(Clone, Copy)]
pub struct HssScheme {
    pub(crate) sites: u8,
    pub(crate) f: u8,
    pub(crate) clients: u8,
    pub(crate) height: u8,
    pub(crate) width: u8,
    pub(crate) levels: u8,
    pub(crate) seed: [u8; 32],
}

/// Where a party's public key is kept: clients in the first row of 256 places, and the servers of each site
/// in a row of their own.
pub(crate) fn place_of(who: Who) -> usize
    ensures { result ≡ place_of who }
{
    match who {
        Who::Client(client) => usize::from(client.0),
        Who::Server(server) => 256 * (usize::from(server.site) + 1) + usize::from(server.index),
    }
}

/// The party that has a place.
fn party_at(k: usize) -> Who
    requires { k < 65_792 }
    ensures { result ≡ party_at k }
{
    if k < 256 {
        Who::Client(ClientId(k as u8))
    } else {
        Who::Server(ServerId {
            site: (k / 256 - 1) as u8,
            index: (k % 256) as u8,
        })
    }
}

impl HssScheme {
    /// Whether `who` is a party of the deployment.
    pub(crate) fn has(&self, who: Who) -> bool
        ensures { result ≡ is_party (scheme_of_hss self.now) who }
    {
        match who {
            Who::Server(server) => server.site < self.sites
                && u16::from(server.index) < 3 * u16::from(self.f) + 1,
            Who::Client(client) => client.0 < self.clients,
        }
    }

    /// The key that the seed gives a party.
    #[tactic(auto, using(crate::proofs::KeyLaws::no_bad_choice), unfolding(crate::specs::Keys::party_secret))]
    pub(crate) fn own_key(&self, alloc: Global, who: Who) -> Result<HssKey, SealError>
        requires { IsTrue (is_choice (scheme_of_hss self.now).kind) }
        ensures made { IfOk result (λ key. secret_in self.now who ≡ Some (hss_secret_of key)) }
        ensures memory { IsOkUnless result errors.OutOfMemory }
    {
        let i = identifier_of(&self.seed, who);
        let seed = secret_of(&self.seed, who);
        match HssKey::new(alloc, self.height, self.width, self.levels, &i, &seed) {
            Ok(key) => Ok(key),
            Err(HssError::OutOfMemory) => Err(SealError::OutOfMemory),
            Err(_) => unreachable!(),
        }
    }

    /// The public key of a party, where `who` is one.
    #[tactic(auto, unfolding(crate::specs::Kept::key_of))]
    fn public_key(&self, alloc: Global, who: Who) -> Result<Option<Shared<[u8; 60]>>, SealError>
        requires { IsTrue (is_choice (scheme_of_hss self.now).kind) }
        ensures key { IfOk result (λ key. key ≡ key_of self.now who) }
        ensures memory { IsOkUnless result errors.OutOfMemory }
    {
        if !self.has(who) {
            return Ok(None);
        }
        let key = self.own_key(alloc, who)?.public_key();
        match Shared::new(alloc, key) {
            Err(_) => Err(SealError::OutOfMemory),
            Ok(shared) => Ok(Some(shared)),
        }
    }

    /// The public keys of all parties, each at its place.
    #[tactic(auto, using(crate::proofs::KeyLaws::kept_none, crate::proofs::KeyLaws::kept_more))]
    pub(crate) fn public_keys(&self, alloc: Global) -> Result<Table<[u8; 60]>, SealError>
        requires { IsTrue (is_choice (scheme_of_hss self.now).kind) }
        ensures kept { IfOk result (KeepsKeys self.now) }
        ensures memory { IsOkUnless result errors.OutOfMemory }
    {
        let places = 256 * (usize::from(self.sites) + 1);
        let Ok(mut keys) = Table::new(alloc, places) else {
            return Err(SealError::OutOfMemory);
        };
        for k in 0..places {
            keys.set(k, self.public_key(alloc, party_at(k))?);
        }
        Ok(keys)
    }
}
