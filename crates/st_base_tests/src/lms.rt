use sha2::{Digest, Sha256};
use st_lmots::OtsKind;
use st_lms::{
    LmsError, LmsKind, LmsSecret, Tree, behind, lms_check, sealed_checks, signature_length,
};
use std::test::Fail;

/// The tree and the seed of scripts/hash_based_seals.py.
const I: [u8; 16] = [0, 1, 2, 3, 4, 5, 6, 7, 8, 9, 10, 11, 12, 13, 14, 15];

const SEED: [u8; 32] = [
    32, 33, 34, 35, 36, 37, 38, 39, 40, 41, 42, 43, 44, 45, 46, 47, 48, 49, 50, 51, 52, 53, 54, 55,
    56, 57, 58, 59, 60, 61, 62, 63,
];

/// The key and the last leaf's signature of scripts/hash_based_seals.py, the latter by its digest.
#[test]
fn signatures_are_the_standards(rt: HostRuntime) -> Result<(), Fail> {
    let key: [u8; 56] = [
        0x00, 0x00, 0x00, 0x05, 0x00, 0x00, 0x00, 0x03, 0x00, 0x01, 0x02, 0x03, 0x04, 0x05, 0x06,
        0x07, 0x08, 0x09, 0x0a, 0x0b, 0x0c, 0x0d, 0x0e, 0x0f, 0x89, 0xa1, 0xbf, 0x4e, 0xa3, 0xe9,
        0x4b, 0x52, 0x49, 0x64, 0x8b, 0x1e, 0x36, 0x2b, 0x19, 0x39, 0xe8, 0x6c, 0xa3, 0xa6, 0xa5,
        0xc1, 0x9e, 0x34, 0x1f, 0xbb, 0x3c, 0x62, 0x3c, 0x8f, 0x97, 0x7b,
    ];
    let digest: [u8; 32] = [
        0xa7, 0xaa, 0xa3, 0x7b, 0x1e, 0x75, 0xcf, 0x9e, 0xfc, 0x9b, 0x4c, 0x8f, 0xde, 0xbc, 0x83,
        0x96, 0x49, 0x46, 0x51, 0x5a, 0x87, 0x06, 0xe8, 0xbf, 0xbd, 0x37, 0x5c, 0x6f, 0xff, 0xe2,
        0x5f, 0x16,
    ];
    let tree = Tree::build(rt.alloc(), 5, 3, &I, &SEED)?;
    assert_eq!(rt; tree.public_key(), key);
    let seal = tree.seal_leaf(rt.alloc(), 31, b"STEWARD1")?;
    assert_eq!(rt; seal.len(), 2348);
    assert_eq!(rt; Sha256::digest(seal.as_slice()), digest);
    let beyond = tree.seal_leaf(rt.alloc(), 32, b"").err();
    assert_eq!(rt; beyond, Some(LmsError::BadLeaf { q: 32 }));
    assert_eq!(rt; lms_check(&key, b"STEWARD1", seal.as_slice()), Ok(true));
    assert_eq!(rt; lms_check(&key, b"STEWARD2", seal.as_slice()), Ok(false));
    let mut moved = seal.into_vec();
    assert_eq!(rt; moved.len(), 2348);
    moved[3] = 32;
    let refused = lms_check(&key, b"STEWARD1", &moved);
    assert_eq!(rt; refused, Err(LmsError::BadLeaf { q: 32 }));
    Ok(())
}

/// Each refusal, types before lengths, the key's before the signature's.
#[test]
fn refusals_come_in_order(rt: HostRuntime) -> Result<(), Fail> {
    let types: [(u32, u32, u32); 3] = [(4, 3, 4), (7, 5, 7), (6, 2, 2)];
    for (kind, ots, got) in types {
        let refused = Tree::build(rt.alloc(), kind, ots, &I, &SEED).err();
        assert_eq!(rt; refused, Some(LmsError::BadType { got }));
    }
    let mut key = [0; 56];
    key[3] = 5;
    key[7] = 4;
    let mut seal = [0; 1296];
    seal[7] = 4;
    seal[1131] = 6;
    let cases: [(&[u8], &[u8], LmsError); 7] = [
        (&seal, &key, LmsError::BadType { got: 0 }),
        (
            &key,
            &key,
            LmsError::BadLength {
                got: 56,
                want: 1292,
            },
        ),
        (&key[..7], &key, LmsError::BadLength { got: 7, want: 56 }),
        (&key[..3], &seal, LmsError::BadLength { got: 3, want: 56 }),
        (&key[..55], &seal, LmsError::BadType { got: 6 }),
        (&key, &seal[..8], LmsError::BadLength { got: 8, want: 1292 }),
        (&key, &[], LmsError::BadLength { got: 0, want: 1292 }),
    ];
    for (key, seal, want) in cases {
        assert_eq!(rt; lms_check(key, b"", seal), Err(want));
    }
    Ok(())
}

/// The parts that keys of two levels are built with.
#[test]
fn parts_are_the_whole(rt: HostRuntime) -> Result<(), Fail> {
    sealed_checks();
    let secret = LmsSecret {
        kind: LmsKind::H5,
        ots: OtsKind::W4,
        i: I,
        seed: SEED,
    };
    assert_eq!(rt; LmsKind::of(secret.kind.number()), Some(secret.kind));
    assert_eq!(rt; secret.kind.leaves(), 32);
    assert_eq!(rt; secret.kind.seal_length(secret.ots), 2348);
    let tree = Tree::of(rt.alloc(), secret)?;
    let other = Tree::build(rt.alloc(), 5, 3, &I, &SEED)?;
    assert_eq!(rt; tree.secret().seed, SEED);
    let key = tree.public_key();
    assert_eq!(rt; key, other.public_key());
    assert_eq!(rt; signature_length(&key), Some(2348));
    assert_eq!(rt; behind(&key, 56), [].as_slice());
    let mut out = Vec::new(rt.alloc());
    tree.put_signature(&mut out, 7, b"STEWARD1")?;
    assert_eq!(rt; lms_check(&key, b"STEWARD1", &out), Ok(true));
    Ok(())
}
