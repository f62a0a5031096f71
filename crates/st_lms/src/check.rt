ghost use Rattle.std.specs.Prelude.{◌≡◌, ◌+◌, ◌*◌, ◌<◌, ◌≤◌, length, take, drop};
ghost use Rattle.st_lms.specs.Kinds.{height_of, leaves_of, lms_seal_length};
ghost use Rattle.st_lms.specs.Formulas.{climbed, root_candidate};
ghost use Rattle.st_lms.specs.Answers.{is_same_type, refused_lms, refused_ots, first_of, ots_named, lms_named, kind_behind, signature_length, bad_type, whole_answer, lms_answer};

use crate::error::LmsError;
use crate::kind::LmsKind;
use crate::nodes::{leaf_node, parent_of};
use st_lmots::{OtsKind, key_candidate, number_in_front};

/// The bytes without their first `n`: none where there are no more.
#[tactic(auto, using(std::proofs::lemmas::List::drop_all))]
pub fn behind(bytes: &[u8], n: usize) -> &[u8]
    ensures { result.now ≡ drop n bytes.now }
{
    if n <= bytes.len() { &bytes[n..] } else { &[] }
}

/// The `N` bytes from `at` on.
fn taken<const N: usize>(bytes: &[u8], at: usize) -> [u8; N]
    requires { at + N ≤ length bytes.now }
    ensures { result ≡ take N (drop at bytes.now) }
{
    let mut taken = [0; N];
    taken.copy_from_slice(&bytes[at..at + N]);
    taken
}

/// Whether a type is this one, where there is one to compare it with.
fn is_same_type(known: Option<u32>, n: u32) -> bool
    ensures { result ≡ is_same_type known n }
{
    match known {
        None => true,
        Some(known) => n == known,
    }
}

/// The LMS type, where it is no type or another than the one to compare it with.
fn refused_lms(known: Option<u32>, got: Option<u32>) -> Option<u32>
    ensures { result ≡ refused_lms known got }
{
    match got {
        None => None,
        Some(n) if LmsKind::of(n).is_some() && is_same_type(known, n) => None,
        Some(n) => Some(n),
    }
}

/// The LM-OTS type, where it is no type or another than the one to compare it with.
fn refused_ots(known: Option<u32>, got: Option<u32>) -> Option<u32>
    ensures { result ≡ refused_ots known got }
{
    match got {
        None => None,
        Some(n) if OtsKind::of(n).is_some() && is_same_type(known, n) => None,
        Some(n) => Some(n),
    }
}

fn first_of(first: Option<u32>, other: Option<u32>) -> Option<u32>
    ensures { result ≡ first_of first other }
{
    match first {
        None => other,
        Some(n) => Some(n),
    }
}

fn ots_named(number: Option<u32>) -> Option<OtsKind>
    ensures { result ≡ ots_named number }
{
    match number {
        None => None,
        Some(n) => OtsKind::of(n),
    }
}

fn lms_named(number: Option<u32>) -> Option<LmsKind>
    ensures { result ≡ lms_named number }
{
    match number {
        None => None,
        Some(n) => LmsKind::of(n),
    }
}

/// How long the signatures of a key are, by its types; None where it is too short to hold them or one is
/// none of its table. Takes no memory.
#[tactic(auto, unfolding(crate::specs::Answers::signature_length))]
pub fn signature_length(key: &[u8]) -> Option<usize>
    ensures { result ≡ signature_length key.now }
{
    let kind = lms_named(number_in_front(key));
    let ots = ots_named(number_in_front(behind(key, 4)));
    match (kind, ots) {
        (Some(kind), Some(ots)) => Some(kind.seal_length(ots)),
        _ => None,
    }
}

/// The LMS type in a signature, behind a leaf's signature of this type.
fn kind_behind(ots: Option<OtsKind>, signature: &[u8]) -> Option<u32>
    ensures { result ≡ kind_behind ots signature.now }
{
    match ots {
        None => None,
        Some(ots) => number_in_front(behind(signature, 4 + ots.seal_length())),
    }
}

/// The first type that is refused: of the key's types, then of the signature's.
#[tactic(auto, unfolding(crate::specs::Answers::bad_type))]
fn bad_type(key: &[u8], signature: &[u8]) -> Option<u32>
    ensures { result ≡ bad_type key.now signature.now }
{
    let kind = number_in_front(key);
    let ots = number_in_front(behind(key, 4));
    let own_ots = number_in_front(behind(signature, 4));
    let own_kind = kind_behind(ots_named(own_ots), signature);
    let in_signature = first_of(refused_ots(ots, own_ots), refused_lms(kind, own_kind));
    let in_key_or_signature = first_of(refused_ots(None, ots), in_signature);
    first_of(refused_lms(None, kind), in_key_or_signature)
}

/// The node a tree's height above node `r`, along a path.
#[tactic(auto, using(crate::proofs::PathLaws::climb_step, crate::proofs::PathLaws::climb_end))]
fn climbed(kind: LmsKind, i: &[u8; 16], r: u32, value: [u8; 32], path: &[u8]) -> [u8; 32]
    requires { length path.now ≡ 32 * height_of kind }
    ensures { result ≡ climbed i.now (height_of kind) r value path.now }
{
    let mut node = r;
    let mut reached = value;
    let mut rest = path;
    for k in 0..kind.height() {
        let (other, above) = rest.split_at(32);
        reached = parent_of(i, node, &reached, other);
        node /= 2;
        rest = above;
    }
    reached
}

/// The root that a signature of the right length speaks for, by leaf `q`.
#[tactic(auto, using(crate::proofs::TreeLaws::leaves_few), unfolding(crate::specs::Formulas::root_candidate))]
fn root_candidate(
    kind: LmsKind,
    ots: OtsKind,
    i: &[u8; 16],
    q: u32,
    message: &[u8],
    signature: &[u8],
) -> [u8; 32]
    requires leaf { q < leaves_of kind }
    requires whole { length signature.now ≡ lms_seal_length kind ots }
    ensures { result ≡ root_candidate kind ots i.now q message.now signature.now }
{
    let length = ots.seal_length();
    let key = key_candidate(ots, i, q, message, &signature[4..4 + length]);
    let r = kind.leaves() + q;
    climbed(
        kind,
        i,
        r,
        leaf_node(i, r, &key),
        behind(signature, 8 + length),
    )
}

/// Whether a signature is that of a key of these types and of the right length.
#[tactic(auto, unfolding(crate::specs::Answers::whole_answer))]
fn check_whole(
    kind: LmsKind,
    ots: OtsKind,
    key: &[u8],
    message: &[u8],
    signature: &[u8],
) -> Result<bool, LmsError>
    requires { length key.now ≡ 56 }
    ensures { result ≡ whole_answer kind ots key.now message.now signature.now }
{
    let want = kind.seal_length(ots);
    if signature.len() != want {
        return Err(LmsError::BadLength {
            got: signature.len(),
            want,
        });
    }
    let q = u32::from_be_bytes(taken(signature, 0));
    if q >= kind.leaves() {
        return Err(LmsError::BadLeaf { q });
    }
    let root = root_candidate(kind, ots, &taken(key, 8), q, message, signature);
    Ok(root.as_slice() == behind(key, 24))
}

/// Whether the signature is the key's over the message. BadType where a type of the key, or then of the
/// signature, is none of its table or the signature's isn't the key's; else BadLength where the key
/// hasn't 56 bytes, or the signature not those of its types; else BadLeaf where the tree has no such
/// leaf. A type that the bytes are too short to hold is no BadType. Takes no memory, and never answers
/// OutOfMemory.
#[tactic(auto, unfolding(crate::specs::Answers::lms_answer))]
pub fn lms_check(key: &[u8], message: &[u8], signature: &[u8]) -> Result<bool, LmsError>
    ensures { result ≡ lms_answer key.now message.now signature.now }
{
    if let Some(got) = bad_type(key, signature) {
        return Err(LmsError::BadType { got });
    }
    let kind = lms_named(number_in_front(key));
    let ots = ots_named(number_in_front(behind(key, 4)));
    match (kind, ots) {
        (Some(kind), Some(ots)) if key.len() == 56 => {
            check_whole(kind, ots, key, message, signature)
        }
        _ => Err(LmsError::BadLength {
            got: key.len(),
            want: 56,
        }),
    }
}
