use crate::{
    OtsError, OtsKind, candidate, joined_array, key_candidate, number_in_front, ots_key, ots_seal,
    place, put_signature, sealed_gives_the_key,
};
use sha2::{Digest, Sha256};
use std::test::Fail;

/// The tree and the seed of scripts/hash_based_seals.py.
const I: [u8; 16] = [0, 1, 2, 3, 4, 5, 6, 7, 8, 9, 10, 11, 12, 13, 14, 15];

const SEED: [u8; 32] = [
    32, 33, 34, 35, 36, 37, 38, 39, 40, 41, 42, 43, 44, 45, 46, 47, 48, 49, 50, 51, 52, 53, 54, 55,
    56, 57, 58, 59, 60, 61, 62, 63,
];

/// The signatures of scripts/hash_based_seals.py, by their digests, and the keys: each type's.
#[test]
fn signatures_are_the_standards(rt: HostRuntime) -> Result<(), Fail> {
    let cases: [(u32, usize, [u8; 32], [u8; 32]); 4] = [
        (
            1,
            8516,
            [
                0x95, 0x65, 0x14, 0xbd, 0x07, 0xd9, 0xb1, 0xed, 0xd6, 0xfc, 0x86, 0xcb, 0xd4, 0x1c,
                0x39, 0xdc, 0x83, 0x64, 0x35, 0xf1, 0xf1, 0x74, 0xf2, 0x43, 0x8f, 0x64, 0x89, 0x96,
                0xd1, 0x15, 0x62, 0x0e,
            ],
            [
                0x3b, 0x76, 0x10, 0x11, 0xdd, 0x80, 0xe2, 0x1b, 0xca, 0xa0, 0xb1, 0xfd, 0x85, 0xde,
                0x2a, 0xc3, 0xdd, 0xe5, 0xa9, 0x21, 0x19, 0x0e, 0xd0, 0xc2, 0x35, 0xd4, 0x21, 0x4a,
                0x96, 0x69, 0x07, 0x63,
            ],
        ),
        (
            2,
            4292,
            [
                0x35, 0xf9, 0x65, 0x46, 0x30, 0xff, 0x3b, 0xc0, 0xe7, 0x87, 0xfd, 0xe9, 0x2c, 0x4f,
                0x09, 0xa0, 0x96, 0xb1, 0x90, 0x73, 0xf7, 0x23, 0x6e, 0xfc, 0x8a, 0x38, 0xae, 0xa6,
                0x0e, 0x03, 0x9a, 0x2b,
            ],
            [
                0xa9, 0x21, 0x6f, 0x81, 0x94, 0x8f, 0x44, 0x94, 0xad, 0x9e, 0x8a, 0xd9, 0x24, 0xdd,
                0xb6, 0x05, 0x0d, 0xfc, 0x8c, 0xad, 0xd5, 0x27, 0xe4, 0x4c, 0xc9, 0xd0, 0xef, 0x6d,
                0xb0, 0xe5, 0x6d, 0x20,
            ],
        ),
        (
            3,
            2180,
            [
                0xcc, 0x34, 0xc9, 0xf4, 0xfb, 0x52, 0x24, 0x87, 0xe3, 0xc7, 0x35, 0x66, 0xe1, 0x1d,
                0x42, 0x8b, 0xfd, 0xd7, 0xd9, 0x38, 0xeb, 0xf0, 0x0c, 0xd5, 0x09, 0x3a, 0x7e, 0x65,
                0x8b, 0xa4, 0x99, 0xda,
            ],
            [
                0x2b, 0x44, 0xa8, 0x50, 0xf9, 0x73, 0xcc, 0x4c, 0xf7, 0x7a, 0x81, 0x82, 0x51, 0xbc,
                0xd2, 0x78, 0x4f, 0x2f, 0xd7, 0xa9, 0x91, 0x31, 0x55, 0x96, 0x3f, 0xa0, 0xa9, 0x03,
                0xec, 0xad, 0x70, 0x5f,
            ],
        ),
        (
            4,
            1124,
            [
                0x7d, 0x60, 0x79, 0x6d, 0xc6, 0xa8, 0x08, 0xa2, 0x3e, 0x93, 0x2e, 0x1a, 0x9c, 0x36,
                0x9f, 0x8d, 0x90, 0x65, 0xda, 0x1b, 0x03, 0xc6, 0xb1, 0x36, 0xf0, 0x7e, 0x47, 0x93,
                0xd1, 0x90, 0x7f, 0xea,
            ],
            [
                0xa7, 0xc5, 0xbf, 0x17, 0xaa, 0xba, 0xfc, 0xdc, 0x6c, 0xfa, 0xb8, 0x23, 0xe9, 0xa7,
                0xd8, 0x83, 0x8d, 0xcb, 0x31, 0xa1, 0x89, 0xd5, 0x7a, 0x26, 0xc1, 0x2e, 0x47, 0x0d,
                0x7f, 0x34, 0x6e, 0x25,
            ],
        ),
    ];
    for (kind, length, digest, key) in cases {
        let seal = ots_seal(rt.alloc(), kind, &I, 3, &SEED, b"STEWARD1")?;
        assert_eq!(rt; seal.len(), length);
        assert_eq!(rt; Sha256::digest(seal.as_slice()), digest);
        let got = candidate(kind, &I, 3, b"STEWARD1", seal.as_slice());
        assert_eq!(rt; got, Ok(key));
        let other = candidate(kind, &I, 3, b"STEWARD2", seal.as_slice());
        assert!(rt; other != Ok(key));
    }
    Ok(())
}

/// Each refusal, the type's before the length's.
#[test]
fn refusals_come_in_order(rt: HostRuntime) -> Result<(), Fail> {
    let refused = ots_seal(rt.alloc(), 5, &I, 3, &SEED, b"").err();
    assert_eq!(rt; refused, Some(OtsError::BadType { got: 5 }));
    let zeros = [0; 40];
    let typed = [0, 0, 0, 3, 0];
    let cases: [(u32, &[u8], OtsError); 5] = [
        (0, &typed, OtsError::BadType { got: 0 }),
        (3, &zeros, OtsError::BadType { got: 0 }),
        (4, &typed, OtsError::BadType { got: 3 }),
        (3, &typed, OtsError::BadLength { got: 5, want: 2180 }),
        (4, &typed[..3], OtsError::BadLength { got: 3, want: 1124 }),
    ];
    for (kind, signature, want) in cases {
        assert_eq!(rt; candidate(kind, &I, 0, b"", signature), Err(want));
    }
    Ok(())
}

/// The parts that trees are built with.
#[test]
fn parts_are_the_whole(rt: HostRuntime) -> Result<(), Fail> {
    sealed_gives_the_key();
    let kind = OtsKind::W4;
    assert_eq!(rt; OtsKind::of(kind.number()), Some(kind));
    let facts = (kind.width(), kind.chains(), kind.shift(), kind.top());
    assert_eq!(rt; facts, (4, 67, 4, 15));
    let mut out = Vec::new(rt.alloc());
    put_signature(&mut out, kind, &I, 3, &SEED, b"STEWARD1")?;
    assert_eq!(rt; out.len(), kind.seal_length());
    assert_eq!(rt; number_in_front(&out), Some(3));
    let key = key_candidate(kind, &I, 3, b"STEWARD1", &out);
    assert_eq!(rt; key, ots_key(kind, &I, 3, &SEED));
    let at = place(&I, 3, 7);
    assert_eq!(rt; &at[16..], [0, 0, 0, 3, 0, 7].as_slice());
    let joined: [u8; 3] = joined_array(&[1], &[2, 3]);
    assert_eq!(rt; joined, [1, 2, 3]);
    Ok(())
}
