use sha2::{Digest, Sha256};
use st_fields::{Bytes, Seq};
use st_hss::hss_check;
use st_hss_seal::{
    DeploymentSeals, PartySealer, is_choice, no_empty_seal_checks, what_parties_seal_checks,
};
use st_lms::behind;
use st_seal::{Check, SealError, Sealer};
use st_words::{ClientId, Deployment, SealKind, ServerId, ServiceKind, Who};
use std::alloc::Global;
use std::process::Abort;
use std::test::Fail;

const SEED: [u8; 32] = [
    0, 1, 2, 3, 4, 5, 6, 7, 8, 9, 10, 11, 12, 13, 14, 15, 16, 17, 18, 19, 20, 21, 22, 23, 24, 25,
    26, 27, 28, 29, 30, 31,
];

/// A deployment of so many sites of one server each, and so many clients.
fn deployment(alloc: Global, sites: u8, clients: u8, seals: SealKind) -> Deployment {
    Deployment {
        id: 7,
        sites,
        f: 0,
        clients,
        service: ServiceKind::List,
        seals,
        seed: SEED,
        faulty: Seq::new(alloc),
        port: 47_000,
    }
}

/// Seals of HSS keys with digits of 4 bits.
fn hss(height: u8, levels: u8) -> SealKind {
    SealKind::Hss {
        height,
        width: 4,
        levels,
    }
}

fn server(site: u8, index: u8) -> Who {
    Who::Server(ServerId { site, index })
}

/// The seals of a deployment.
fn seals_of(alloc: Global, rt: &impl Abort, d: &Deployment) -> Result<DeploymentSeals, Fail> {
    assert!(rt; is_choice(d.seals));
    let seals = DeploymentSeals::new(alloc, d)?;
    Ok(seals)
}

/// The sealer of a party.
fn sealer_of(
    alloc: Global,
    rt: &impl Abort,
    seals: &DeploymentSeals,
    who: Who,
) -> Result<PartySealer, Fail> {
    assert!(rt; seals.has(who));
    let sealer = seals.sealer(alloc, who)?;
    Ok(sealer)
}

/// One seal, through the trait alone.
fn sealed<S: Sealer>(sealer: &mut S, alloc: Global, leaf: u32) -> Result<Bytes, SealError> {
    sealer.seal(alloc, leaf, b"STEWARD1")
}

/// One check, through the trait alone.
fn checks<C: Check>(check: &C, who: Who, seal: &[u8]) -> bool {
    check.check(who, b"STEWARD1", seal)
}

/// The first trees' keys of server 1.0 and client 1 in scripts/hash_based_seals.py.
const SERVER: [u8; 56] = [
    0x00, 0x00, 0x00, 0x05, 0x00, 0x00, 0x00, 0x03, 0x56, 0xbf, 0xa8, 0x3f, 0x89, 0xf1, 0x78, 0xab,
    0x50, 0x6e, 0xa5, 0xcf, 0xca, 0xc6, 0x35, 0xde, 0x39, 0x40, 0x41, 0x22, 0x88, 0x2a, 0x96, 0xa7,
    0xc6, 0xd9, 0xf5, 0x72, 0x56, 0xcd, 0x0d, 0xbe, 0x47, 0x59, 0x8f, 0xf5, 0xcf, 0xae, 0x47, 0xc3,
    0xd1, 0x71, 0xdd, 0xe4, 0xc1, 0xfa, 0xa3, 0xee,
];

const CLIENT: [u8; 56] = [
    0x00, 0x00, 0x00, 0x05, 0x00, 0x00, 0x00, 0x03, 0x02, 0x78, 0x92, 0x43, 0x10, 0xb6, 0x3f, 0x0d,
    0xf6, 0xb5, 0x37, 0xb4, 0x0d, 0xb6, 0x7b, 0x21, 0x86, 0xfd, 0x90, 0x10, 0xee, 0x35, 0xff, 0x4d,
    0xf9, 0x8d, 0xda, 0xfb, 0x3c, 0x60, 0xcd, 0x13, 0xfb, 0xbd, 0x31, 0x0d, 0xb0, 0xb4, 0x03, 0x2b,
    0xc6, 0x3d, 0x3d, 0x11, 0x8e, 0x6c, 0x9c, 0x5c,
];

/// The public key with so many levels.
fn public_key(levels: u8, first: &[u8; 56]) -> [u8; 60] {
    let mut key = [0; 60];
    key[3] = levels;
    key[4..].copy_from_slice(first);
    key
}

/// Keys and seals of scripts/hash_based_seals.py, the seals by their digests.
#[test]
fn seals_are_the_definitions(rt: HostRuntime) -> Result<(), Fail> {
    what_parties_seal_checks();
    no_empty_seal_checks();
    let cases: [(Who, u8, u32, &[u8; 56], usize, [u8; 32]); 3] = [
        (
            server(1, 0),
            1,
            3,
            &SERVER,
            2352,
            [
                0xd5, 0x47, 0xfe, 0x71, 0xf9, 0xe2, 0xcf, 0xcf, 0x02, 0x5b, 0x33, 0x11, 0x05, 0x8d,
                0x5e, 0x0c, 0x58, 0x5b, 0x0e, 0xd7, 0xfa, 0x22, 0x36, 0x17, 0xc4, 0xfe, 0x2f, 0x89,
                0x59, 0x78, 0xe4, 0xf9,
            ],
        ),
        (
            server(1, 0),
            2,
            70,
            &SERVER,
            4756,
            [
                0x0d, 0xa7, 0x90, 0xe1, 0x76, 0x83, 0x94, 0x76, 0x8e, 0x85, 0xaa, 0x0a, 0x45, 0x41,
                0x62, 0xd8, 0x15, 0xde, 0x4a, 0x61, 0x4f, 0x4f, 0x24, 0xb4, 0x8d, 0x1d, 0x37, 0x41,
                0x9b, 0x92, 0x56, 0x57,
            ],
        ),
        (
            Who::Client(ClientId(1)),
            1,
            31,
            &CLIENT,
            2352,
            [
                0xe7, 0xb6, 0xba, 0x55, 0x7a, 0x0d, 0xff, 0xfc, 0xfb, 0xc5, 0xa0, 0x33, 0x80, 0x53,
                0xe5, 0x90, 0x8c, 0x80, 0x9d, 0x0f, 0xd2, 0xab, 0xab, 0x08, 0x29, 0x62, 0x9a, 0xe8,
                0xa2, 0xb6, 0xf6, 0x47,
            ],
        ),
    ];
    for (who, levels, leaf, first, length, digest) in cases {
        let seals = seals_of(
            rt.alloc(),
            &rt,
            &deployment(rt.alloc(), 2, 2, hss(5, levels)),
        )?;
        let mut sealer = sealer_of(rt.alloc(), &rt, &seals, who)?;
        let seal = sealed(&mut sealer, rt.alloc(), leaf)?;
        assert_eq!(rt; seal.len(), length);
        assert_eq!(rt; Sha256::digest(seal.as_slice()), digest);
        let key = public_key(levels, first);
        assert!(rt; hss_check(&key, b"STEWARD1", seal.as_slice()));
        assert!(rt; checks(&seals, who, seal.as_slice()));
        let again = sealed(&mut sealer, rt.alloc(), leaf)?;
        assert_eq!(rt; again.as_slice(), seal.as_slice());
    }
    Ok(())
}

/// What the last server seals with its last leaf checks for it alone, and behind that leaf nothing is sealed.
fn only_own_seals_check(
    alloc: Global,
    rt: &impl Abort,
    deployment: &Deployment,
    capacity: u32,
    length: usize,
) -> Result<(), Fail> {
    assert!(rt; deployment.sites > 0 && capacity > 0);
    let own = server(deployment.sites - 1, 0);
    let seals = seals_of(alloc, rt, deployment)?;
    let mut sealer = sealer_of(alloc, rt, &seals, own)?;
    assert_eq!(rt; sealer.capacity(), capacity);
    let seal = sealed(&mut sealer, alloc, capacity - 1)?;
    assert_eq!(rt; seal.len(), length);
    assert!(rt; checks(&seals, own, seal.as_slice()));
    assert!(rt; !seals.check(own, b"STEWARD2", seal.as_slice()));
    assert!(rt; !checks(&seals, own, behind(seal.as_slice(), 1)));
    for other in [
        server(deployment.sites, 0),
        server(deployment.sites - 1, 1),
        server(255, 255),
        Who::Client(ClientId(0)),
        Who::Client(ClientId(255)),
    ] {
        assert!(rt; !checks(&seals, other, seal.as_slice()));
        assert!(rt; !checks(&seals, other, &[]));
    }
    let spent = sealed(&mut sealer, alloc, capacity).err();
    assert_eq!(rt; spent, Some(SealError::Spent { leaf: capacity }));
    Ok(())
}

#[test]
fn only_own_keyed_seals_check(rt: HostRuntime) -> Result<(), Fail> {
    let deployment = deployment(rt.alloc(), 2, 1, SealKind::Keyed);
    only_own_seals_check(rt.alloc(), &rt, &deployment, 1_048_576, 36)
}

#[test]
fn only_own_seals_of_one_level_check(rt: HostRuntime) -> Result<(), Fail> {
    let deployment = deployment(rt.alloc(), 2, 1, hss(5, 1));
    only_own_seals_check(rt.alloc(), &rt, &deployment, 32, 2352)
}

#[test]
fn only_own_seals_of_two_levels_check(rt: HostRuntime) -> Result<(), Fail> {
    let deployment = deployment(rt.alloc(), 1, 1, hss(5, 2));
    only_own_seals_check(rt.alloc(), &rt, &deployment, 1024, 4756)
}

/// The longest seals. (Three trees of a million hashes take too long where each step is checked.)
#[test]
fn only_own_longest_seals_check(rt: HostRuntime) -> Result<(), Fail> {
    let deployment = deployment(rt.alloc(), 1, 0, hss(10, 2));
    only_own_seals_check(rt.alloc(), &rt, &deployment, 1_048_576, 5076)
}

/// Which choices there are.
#[test]
fn eight_choices(rt: HostRuntime) -> Result<(), Fail> {
    assert!(rt; is_choice(SealKind::Keyed));
    for (height, width, levels, want) in [
        (10, 8, 2, true),
        (5, 4, 1, true),
        (15, 4, 1, false),
        (5, 2, 1, false),
        (5, 4, 0, false),
        (5, 4, 3, false),
    ] {
        let kind = SealKind::Hss {
            height,
            width,
            levels,
        };
        assert_eq!(rt; is_choice(kind), want);
    }
    Ok(())
}
