ghost use Rattle.std.specs.Prelude.{◌≡◌, ◌+◌, ◌*◌, ◌++◌, ◌&&◌, nat_lt, length, IsTrue};
ghost use Rattle.sha2.specs.Sha256.{sha256};
ghost use Rattle.st_seal.specs.Keyed.{party_bytes, secret_of, keyed_seal, keyed_checks, keyed_pen};
ghost use Rattle.st_seal.specs.KeyedSchemes.{keyed_scheme};
ghost use Rattle.st_seal.specs.Scheme.{is_party};

use crate::sealer::{Check, SealError, Sealer};
use sha2::{Digest, Sha256};
use st_fields::{Bytes, Seq};
use st_words::{Deployment, Who};
use std::alloc::Global;

/// How many leaves a keyed sealer has.
const LEAVES: u32 = 1_048_576;

/// The check of a deployment's keyed seals. Anyone who has the deployment can make such seals: they
/// serve replays and first runs. It has no `Debug`, so that no text shows the seed.
#[derive(Clone, Copy)]
pub struct KeyedSeals {
    sites: u8,
    f: u8,
    clients: u8,
    seed: [u8; 32],
}

/// The keyed seals of one party.
#[derive(Drop)]
pub struct KeyedSealer {
    seals: KeyedSeals,
    who: Who,
    secret: [u8; 32],
    ghost party: { IsTrue (is_party (keyed_scheme seals) who) },
    ghost derived: { secret ≡ secret_of seals.seed who },
}

impl KeyedSeals {
    ghost use Rattle.st_words.specs.declared.deployment.SealKind.TheVariants.{Keyed};
    ghost use Rattle.st_seal.specs.Scheme.{scheme_of};
    ghost use Rattle.st_seal.specs.KeyedSealers.{pen_of};
    ghost use Rattle.st_seal.specs.Pen.{Accepts};

    /// The keyed seals of a deployment's parties, of whatever kind its own seals are. Takes no memory.
    pub fn new(d: &Deployment) -> KeyedSeals
        ensures { keyed_scheme result ≡ record (scheme_of d.now) { kind = Keyed } }
    {
        KeyedSeals {
            sites: d.sites,
            f: d.f,
            clients: d.clients,
            seed: d.seed,
        }
    }

    /// Whether `who` is a party of the deployment.
    pub fn has(&self, who: Who) -> bool
        ensures { result ≡ is_party (keyed_scheme self.now) who }
    {
        match who {
            Who::Server(server) => server.site < self.sites
                && u16::from(server.index) < 3 * u16::from(self.f) + 1,
            Who::Client(client) => client.0 < self.clients,
        }
    }

    /// The sealer of a party of the deployment. Takes no memory.
    #[tactic(auto, using(crate::specs::KeyedLaws::keyed_accepted))]
    pub fn sealer(&self, who: Who) -> KeyedSealer
        requires { IsTrue (is_party (keyed_scheme self.now) who) }
        ensures pen { pen_of result ≡ keyed_pen (keyed_scheme self.now) who }
        ensures accepted { Accepts (keyed_checks (keyed_scheme self.now)) (pen_of result) }
    {
        KeyedSealer {
            seals: *self,
            who,
            secret: secret_of(&self.seed, who),
        }
    }
}

impl Check for KeyedSeals {
    ghost checks = { λ s. keyed_checks (keyed_scheme s) };

    #[tactic(auto, unfolding(crate::specs::Keyed::keyed_checks))]
    fn check(&self, who: Who, bytes: &[u8], seal: &[u8]) -> bool {
        if !self.has(who) {
            return false;
        }
        if seal.len() != 36 {
            return false;
        }
        let expected = keyed_seal(&secret_of(&self.seed, who), &seal[..4], bytes);
        seal == expected.as_slice()
    }
}

impl Sealer for KeyedSealer {
    ghost use Rattle.st_seal.specs.KeyedLaws.{keyed_sound};
    ghost use Rattle.st_seal.specs.KeyedSealers.{pen_of};

    ghost pen = { pen_of };

    ghost sound = { λ s. keyed_sound (keyed_scheme s.seals) s.who s.party };

    #[tactic(auto, unfolding(crate::specs::Keyed::sealed_by))]
    fn seal(&mut self, alloc: Global, leaf: u32, bytes: &[u8]) -> Result<Bytes, SealError> {
        if leaf >= LEAVES {
            return Err(SealError::Spent { leaf });
        }
        let seal = keyed_seal(&self.secret, &leaf.to_be_bytes(), bytes);
        let seal = Vec::from_slice(alloc, &seal)?;
        Ok(Seq::from_vec(seal))
    }

    fn capacity(&self) -> u32 {
        LEAVES
    }
}

/// A party's own two bytes.
fn party_bytes(who: Who) -> [u8; 2]
    ensures { result ≡ party_bytes who }
{
    match who {
        Who::Server(server) => [server.site, server.index],
        Who::Client(client) => [0xff, client.0],
    }
}

/// The secret of a party.
#[tactic(auto, unfolding(crate::specs::Keyed::secret_of))]
fn secret_of(seed: &[u8; 32], who: Who) -> [u8; 32]
    ensures { result ≡ secret_of seed.now who }
{
    let own = party_bytes(who);
    let mut hasher = Sha256::new();
    hasher.update(&[1]);
    hasher.update(seed);
    hasher.update(&own);
    hasher.finalize()
}

/// The digest of three pieces, taken as one message.
fn digest_of(a: &[u8], b: &[u8], c: &[u8]) -> [u8; 32]
    ensures { result ≡ sha256 (a.now ++ b.now ++ c.now) }
{
    let mut hasher = Sha256::new();
    hasher.update(a);
    hasher.update(b);
    hasher.update(c);
    hasher.finalize()
}

/// The seal with a secret and a leaf, four bytes.
#[tactic(auto, unfolding(crate::specs::Keyed::keyed_seal))]
fn keyed_seal(secret: &[u8; 32], leaf: &[u8], bytes: &[u8]) -> [u8; 36]
    requires { length leaf.now ≡ 4 }
    ensures { result ≡ keyed_seal secret.now leaf.now bytes.now }
{
    let digest = digest_of(secret, leaf, bytes);
    let mut seal = [0; 36];
    seal[..4].copy_from_slice(leaf);
    seal[4..].copy_from_slice(&digest);
    seal
}
