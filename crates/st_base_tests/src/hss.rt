use sha2::{Digest, Sha256};
use st_hss::{HssError, HssKey, hss_check, hss_seal_lengths, hss_sealed_checks};
use std::test::Fail;

/// The tree and the seed of scripts/hash_based_seals.py.
const I: [u8; 16] = [0, 1, 2, 3, 4, 5, 6, 7, 8, 9, 10, 11, 12, 13, 14, 15];

const SEED: [u8; 32] = [
    32, 33, 34, 35, 36, 37, 38, 39, 40, 41, 42, 43, 44, 45, 46, 47, 48, 49, 50, 51, 52, 53, 54, 55,
    56, 57, 58, 59, 60, 61, 62, 63,
];

/// One level of height 5 and digits of 4 bits: the key and the last seal of
/// scripts/hash_based_seals.py, the latter by its digest.
#[test]
fn one_level_is_the_standards(rt: HostRuntime) -> Result<(), Fail> {
    hss_sealed_checks();
    hss_seal_lengths();
    let public: [u8; 60] = [
        0x00, 0x00, 0x00, 0x01, 0x00, 0x00, 0x00, 0x05, 0x00, 0x00, 0x00, 0x03, 0x00, 0x01, 0x02,
        0x03, 0x04, 0x05, 0x06, 0x07, 0x08, 0x09, 0x0a, 0x0b, 0x0c, 0x0d, 0x0e, 0x0f, 0x89, 0xa1,
        0xbf, 0x4e, 0xa3, 0xe9, 0x4b, 0x52, 0x49, 0x64, 0x8b, 0x1e, 0x36, 0x2b, 0x19, 0x39, 0xe8,
        0x6c, 0xa3, 0xa6, 0xa5, 0xc1, 0x9e, 0x34, 0x1f, 0xbb, 0x3c, 0x62, 0x3c, 0x8f, 0x97, 0x7b,
    ];
    let digest: [u8; 32] = [
        0x24, 0x6f, 0x65, 0xb7, 0xb5, 0xe5, 0xa8, 0xcf, 0x41, 0xf6, 0x85, 0x5f, 0xd0, 0x24, 0x01,
        0x39, 0x0f, 0x1d, 0x11, 0x1a, 0x3c, 0xb5, 0x57, 0x32, 0xb2, 0xa9, 0xca, 0xda, 0xdb, 0xac,
        0x11, 0x6a,
    ];
    let mut key = HssKey::new(rt.alloc(), 5, 4, 1, &I, &SEED)?;
    assert_eq!(rt; key.public_key(), public);
    assert_eq!(rt; key.capacity(), 32);
    let seal = key.seal_at(rt.alloc(), 31, b"STEWARD1")?;
    assert_eq!(rt; seal.len(), 2352);
    assert_eq!(rt; Sha256::digest(seal.as_slice()), digest);
    assert!(rt; hss_check(&public, b"STEWARD1", seal.as_slice()));
    assert!(rt; !hss_check(&public, b"STEWARD2", seal.as_slice()));
    let spent = key.seal_at(rt.alloc(), 32, b"").err();
    assert_eq!(rt; spent, Some(HssError::Spent { index: 32 }));
    Ok(())
}

/// Two levels: a seal in the middle, by its digest, and the same seal again from the trees that are kept.
#[test]
fn two_levels_are_the_standards(rt: HostRuntime) -> Result<(), Fail> {
    let digest: [u8; 32] = [
        0x8f, 0x39, 0x4c, 0xed, 0x40, 0x7f, 0xa7, 0x85, 0xfb, 0xf2, 0xa5, 0x38, 0x8c, 0x04, 0x37,
        0xef, 0x18, 0xa5, 0x81, 0xc2, 0xad, 0x37, 0xdf, 0x22, 0x20, 0x1d, 0x2f, 0x4d, 0x46, 0xb5,
        0x3a, 0x83,
    ];
    let mut key = HssKey::new(rt.alloc(), 5, 4, 2, &I, &SEED)?;
    assert_eq!(rt; key.capacity(), 1024);
    let seal = key.seal_at(rt.alloc(), 70, b"STEWARD1")?;
    assert_eq!(rt; seal.len(), 4756);
    assert_eq!(rt; Sha256::digest(seal.as_slice()), digest);
    assert!(rt; hss_check(&key.public_key(), b"STEWARD1", seal.as_slice()));
    let again = key.seal_at(rt.alloc(), 70, b"STEWARD1")?;
    assert_eq!(rt; again.as_slice(), seal.as_slice());
    let spent = key.seal_at(rt.alloc(), 1024, b"").err();
    assert_eq!(rt; spent, Some(HssError::Spent { index: 1024 }));
    Ok(())
}

/// What is no choice, and bytes that are no key or no seal.
#[test]
fn others_are_refused(rt: HostRuntime) -> Result<(), Fail> {
    for (height, width, levels) in [(15, 4, 1), (5, 2, 1), (5, 4, 3), (5, 4, 0)] {
        let refused = HssKey::new(rt.alloc(), height, width, levels, &I, &SEED).err();
        assert_eq!(rt; refused, Some(HssError::BadProfile));
    }
    let zeros = [0; 60];
    let cases: [(&[u8], &[u8]); 3] = [(&[], &[]), (&zeros, &zeros), (&zeros[..4], &zeros)];
    for (key, seal) in cases {
        assert!(rt; !hss_check(key, b"", seal));
    }
    Ok(())
}
