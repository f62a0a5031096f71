ghost use Rattle.std.specs.Prelude.{◌≡◌, ◌+◌, ◌*◌, ◌<◌, ◌≤◌, length};
ghost use Rattle.st_lms.specs.Kinds.{leaves_of};
ghost use Rattle.st_lms.specs.Formulas.{leaf_node, inner_node, tree_node, parent_of};
ghost use Rattle.st_lms.specs.Trees.{IsBuiltFrom, IsBuilt};

use crate::secret::LmsSecret;
use sha2::{Digest, Sha256};
use st_lmots::{ots_key, place};

/// What the hash of a leaf, and of a node above others, has in the place of a chain's number.
const FOR_LEAF: u16 = 0x8282;

const FOR_INNER: u16 = 0x8383;

/// Node `r`, where it is a leaf of this public key.
#[tactic(auto, unfolding(crate::specs::Formulas::leaf_node))]
pub(crate) fn leaf_node(i: &[u8; 16], r: u32, key: &[u8; 32]) -> [u8; 32]
    ensures { result ≡ leaf_node i.now r key.now }
{
    let at = place(i, r, FOR_LEAF);
    let mut hasher = Sha256::new();
    hasher.update(&at);
    hasher.update(key);
    hasher.finalize()
}

/// Node `r`, above these two.
#[tactic(auto, unfolding(crate::specs::Formulas::inner_node))]
fn inner_node(i: &[u8; 16], r: u32, left: &[u8], right: &[u8]) -> [u8; 32]
    ensures { result ≡ inner_node i.now r left.now right.now }
{
    let at = place(i, r, FOR_INNER);
    let mut hasher = Sha256::new();
    hasher.update(&at);
    hasher.update(left);
    hasher.update(right);
    hasher.finalize()
}

/// The parent of node `r`, from its value and its sibling's.
#[tactic(auto, unfolding(crate::specs::Formulas::parent_of))]
pub(crate) fn parent_of(i: &[u8; 16], r: u32, value: &[u8], other: &[u8]) -> [u8; 32]
    ensures { result ≡ parent_of i.now r value.now other.now }
{
    if r % 2 == 1 {
        inner_node(i, r / 2, other, value)
    } else {
        inner_node(i, r / 2, value, other)
    }
}

/// Node `r`, where those below it are kept.
#[tactic(auto, using(crate::proofs::TreeLaws::node_leaf, crate::proofs::TreeLaws::node_inner, crate::proofs::TreeLaws::leaves_few))]
fn node_value(secret: &LmsSecret, nodes: &[[u8; 32]], r: usize) -> [u8; 32]
    requires own { 1 ≤ r }
    requires within { r < 2 * leaves_of secret.now.kind }
    requires all { length nodes.now ≡ 2 * leaves_of secret.now.kind }
    requires below { IsBuiltFrom secret.now (r + 1) nodes.now }
    ensures { result ≡ tree_node secret.now r }
{
    let leaves = secret.kind.leaves() as usize;
    let number = r as u32;
    if r >= leaves {
        let key = ots_key(secret.ots, &secret.i, (r - leaves) as u32, &secret.seed);
        return leaf_node(&secret.i, number, &key);
    }
    inner_node(&secret.i, number, &nodes[2 * r], &nodes[2 * r + 1])
}

/// Writes every node at its number.
#[tactic(auto, using(crate::proofs::TreeLaws::built_more))]
pub(crate) fn fill(secret: &LmsSecret, nodes: &mut [[u8; 32]])
    requires { length nodes.old ≡ 2 * leaves_of secret.now.kind }
    ensures { IsBuilt secret.now nodes.new }
{
    let mut r = nodes.len();
    while r > 1 {
        r -= 1;
        let value = node_value(secret, nodes, r);
        nodes[r] = value;
    }
}
