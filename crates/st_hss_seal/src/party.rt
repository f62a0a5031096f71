ghost use Rattle.std.specs.Prelude.{◌≡◌, ◌∷◌, ◌++◌, take};
ghost use Rattle.sha2.specs.Sha256.{sha256};
ghost use Rattle.st_seal.specs.Keyed.{party_bytes, secret_of};
ghost use Rattle.st_hss_seal.specs.Keys.{identifier_of};

use sha2::{Digest, Sha256};
use st_words::Who;

/// A party's own two bytes.
fn party_bytes(who: Who) -> [u8; 2]
    ensures { result ≡ party_bytes who }
{
    match who {
        Who::Server(server) => [server.site, server.index],
        Who::Client(client) => [0xff, client.0],
    }
}

/// The digest of a byte, the deployment's seed, and a party's bytes.
fn derived(first: u8, seed: &[u8; 32], who: Who) -> [u8; 32]
    ensures { result ≡ sha256 ((first ∷ seed.now) ++ party_bytes who) }
{
    let own = party_bytes(who);
    let mut hasher = Sha256::new();
    hasher.update(&[first]);
    hasher.update(seed);
    hasher.update(&own);
    hasher.finalize()
}

/// The seed of a party's key.
#[tactic(auto, unfolding(st_seal::specs::Keyed::secret_of))]
pub(crate) fn secret_of(seed: &[u8; 32], who: Who) -> [u8; 32]
    ensures { result ≡ secret_of seed.now who }
{
    derived(1, seed, who)
}

/// The identifier of a party's first tree.
#[tactic(auto, unfolding(crate::specs::Keys::identifier_of))]
pub(crate) fn identifier_of(seed: &[u8; 32], who: Who) -> [u8; 16]
    ensures { result ≡ identifier_of seed.now who }
{
    let digest = derived(2, seed, who);
    let mut half = [0; 16];
    half.copy_from_slice(&digest[..16]);
    half
}
