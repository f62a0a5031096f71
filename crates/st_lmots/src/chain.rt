ghost use Rattle.std.specs.Prelude.{◌≡◌, ◌-◌, ◌≤◌, ◌++◌};
ghost use Rattle.st_lmots.specs.Formulas.{place, step, chain, secret};

use crate::arrays::joined_array;
use sha2::{Digest, Sha256};

/// What each hash begins with: the identifier of the tree, the leaf, and the number of a chain or what the
/// hash is for.
#[tactic(auto, unfolding(crate::specs::Formulas::place, st_fields::specs::Spelling::number))]
pub fn place(i: &[u8; 16], q: u32, n: u16) -> [u8; 22]
    ensures { result ≡ place i.now q n }
{
    let leaf: [u8; 20] = joined_array(i, &q.to_be_bytes());
    joined_array(&leaf, &n.to_be_bytes())
}

/// One step of a chain, at `j`.
#[tactic(auto, unfolding(crate::specs::Formulas::step))]
pub(crate) fn step(at: &[u8; 22], j: u8, value: &[u8; 32]) -> [u8; 32]
    ensures { result ≡ step at.now j value.now }
{
    let mut hasher = Sha256::new();
    hasher.update(at);
    hasher.update(&[j]);
    hasher.update(value);
    hasher.finalize()
}

/// The value at `to` of the chain that has `value` at `from`.
#[tactic(auto, using(crate::proofs::ChainLaws::chain_none, crate::proofs::ChainLaws::chain_more))]
pub(crate) fn chain(at: &[u8; 22], from: u8, to: u8, value: [u8; 32]) -> [u8; 32]
    requires { from ≤ to }
    ensures { result ≡ chain at.now from (to - from) value }
{
    let mut reached = value;
    for j in from..to {
        reached = step(at, j, &reached);
    }
    reached
}

/// Where a chain begins.
#[tactic(auto, unfolding(crate::specs::Formulas::secret))]
pub(crate) fn secret(at: &[u8; 22], seed: &[u8; 32]) -> [u8; 32]
    ensures { result ≡ secret at.now seed.now }
{
    step(at, 0xff, seed)
}
