use st_fields::{Bytes, Seq};
use st_seal::{
    Added, Check, Collector, KeyedSeals, Quorum, SealError, Sealer, Signed, SiteVoice, SoloVoice,
    Voice, quorum_holds,
};
use st_words::{ClientId, Deployment, SealKind, ServerId, ServiceKind, SiteId, Who};
use std::alloc::Global;
use std::process::Abort;
use std::test::Fail;

/// A deployment of sites of 7 servers, with 3 clients.
fn deployment(alloc: Global, sites: u8, seed: [u8; 32]) -> Deployment {
    Deployment {
        id: 7,
        sites,
        f: 2,
        clients: 3,
        service: ServiceKind::List,
        seals: SealKind::Keyed,
        seed,
        faulty: Seq::new(alloc),
        port: 47_000,
    }
}

fn server(site: u8, index: u8) -> Who {
    Who::Server(ServerId { site, index })
}

const SEED: [u8; 32] = [
    0, 1, 2, 3, 4, 5, 6, 7, 8, 9, 10, 11, 12, 13, 14, 15, 16, 17, 18, 19, 20, 21, 22, 23, 24, 25,
    26, 27, 28, 29, 30, 31,
];

/// One seal, through the trait alone.
fn sealed<S: Sealer>(sealer: &mut S, alloc: Global, leaf: u32) -> Result<Bytes, SealError> {
    sealer.seal(alloc, leaf, b"STEWARD1")
}

/// One check, through the trait alone.
fn checks<C: Check>(check: &C, who: Who, seal: &[u8]) -> bool {
    check.check(who, b"STEWARD1", seal)
}

/// The seals of scripts/keyed_seals.py.
#[test]
fn keyed_seals_are_the_definitions(rt: HostRuntime) -> Result<(), Fail> {
    let cases: [([u8; 32], Who, u32, &[u8], [u8; 36]); 3] = [
        (
            [0; 32],
            server(0, 0),
            0,
            b"",
            [
                0x00, 0x00, 0x00, 0x00, 0xf6, 0x73, 0x3c, 0x24, 0x55, 0x02, 0xe5, 0x76, 0x92, 0x58,
                0xd1, 0xd9, 0x01, 0x0b, 0xce, 0x20, 0xa6, 0x9e, 0x07, 0xab, 0xaf, 0xeb, 0xb1, 0x4d,
                0xc6, 0x2a, 0x08, 0xc4, 0xf2, 0x87, 0x9f, 0xa2,
            ],
        ),
        (
            [0; 32],
            Who::Client(ClientId(0)),
            0,
            b"STEWARD1",
            [
                0x00, 0x00, 0x00, 0x00, 0x44, 0x04, 0x39, 0xe0, 0xd1, 0xf5, 0x30, 0x22, 0x08, 0x52,
                0xd1, 0x78, 0x9b, 0x6e, 0x7c, 0x79, 0xdd, 0xd2, 0x9d, 0xc9, 0x10, 0x8f, 0xba, 0x50,
                0xa1, 0xeb, 0x09, 0x23, 0x8f, 0x66, 0x95, 0x31,
            ],
        ),
        (
            SEED,
            server(6, 6),
            1_048_575,
            b"STEWARD1",
            [
                0x00, 0x0f, 0xff, 0xff, 0xd2, 0xbc, 0x10, 0x31, 0x7b, 0xa2, 0x1e, 0xec, 0xba, 0x6b,
                0xad, 0xff, 0x3d, 0x28, 0xe9, 0x71, 0x7c, 0x29, 0x6f, 0x14, 0x3f, 0xa4, 0xca, 0xc3,
                0x39, 0x06, 0xb6, 0x92, 0x1c, 0x84, 0xf3, 0xac,
            ],
        ),
    ];
    for (seed, who, leaf, bytes, want) in cases {
        let seals = KeyedSeals::new(&deployment(rt.alloc(), 7, seed));
        assert!(rt; seals.has(who));
        let seal = seals.sealer(who).seal(rt.alloc(), leaf, bytes)?;
        assert_eq!(rt; seal.as_slice(), want.as_slice());
        assert!(rt; seals.check(who, bytes, seal.as_slice()));
    }
    Ok(())
}

/// Only the party's own seal checks, over these bytes; the leaf in it has no bound.
#[test]
fn only_own_seals_check(rt: HostRuntime) -> Result<(), Fail> {
    let seals = KeyedSeals::new(&deployment(rt.alloc(), 7, SEED));
    let last = server(6, 6);
    assert!(rt; seals.has(last));
    let mut sealer = seals.sealer(last);
    assert_eq!(rt; sealer.capacity(), 1_048_576);
    assert_eq!(rt;
        sealed(&mut sealer, rt.alloc(), 1_048_576).err(),
        Some(SealError::Spent { leaf: 1_048_576 })
    );
    let seal = sealed(&mut sealer, rt.alloc(), 1_048_575)?;
    assert!(rt; checks(&seals, last, seal.as_slice()));
    assert!(rt; !checks(&seals, server(6, 5), seal.as_slice()));
    assert!(rt; !seals.check(last, b"STEWARD2", seal.as_slice()));
    let beyond: [u8; 36] = [
        0xff, 0xff, 0xff, 0xff, 0x5c, 0x6c, 0xb4, 0x09, 0xff, 0x5b, 0xcf, 0xd9, 0x6f, 0xb3, 0xc1,
        0x0a, 0x8d, 0x61, 0x9b, 0xef, 0x30, 0x5f, 0xfe, 0x15, 0x0d, 0xe1, 0x99, 0xe6, 0xce, 0xc1,
        0xa2, 0xc2, 0x91, 0x3c, 0xeb, 0x98,
    ];
    assert!(rt; checks(&seals, last, &beyond));
    assert!(rt; !checks(&seals, last, &beyond[..35]));
    let fewer = KeyedSeals::new(&deployment(rt.alloc(), 6, SEED));
    assert!(rt; !checks(&fewer, last, seal.as_slice()));
    for who in [server(7, 0), server(0, 7), Who::Client(ClientId(3))] {
        assert!(rt; !seals.has(who));
    }
    Ok(())
}

/// The seal of a server of site 0 over `STEWARD1`.
fn signed(alloc: Global, rt: &impl Abort, seals: &KeyedSeals, index: u8) -> Result<Signed, Fail> {
    let who = server(0, index);
    assert!(rt; seals.has(who));
    let seal = seals.sealer(who).seal(alloc, 0, b"STEWARD1")?;
    Ok(Signed { index, seal })
}

/// The seals of these servers of site 0.
fn quorum_of(
    alloc: Global,
    rt: &impl Abort,
    seals: &KeyedSeals,
    servers: &[u8],
) -> Result<Quorum, Fail> {
    let mut quorum = Quorum::new(alloc);
    for index in servers {
        let share = signed(alloc, rt, seals, *index)?;
        let next = share.index;
        assert!(rt; quorum.as_slice().iter().all(|before| before.index < next));
        quorum.push(share)?;
    }
    Ok(quorum)
}

/// A site's word, through the trait alone.
fn holds<V: Voice>(voice: &V, site: u8, quorum: &Quorum) -> bool {
    voice.holds(SiteId(site), b"STEWARD1", quorum)
}

/// Where one server of four may be faulty, three seals are a site's word.
#[test]
fn exactly_a_quorum_of_seals_that_check_holds(rt: HostRuntime) -> Result<(), Fail> {
    let seals = KeyedSeals::new(&deployment(rt.alloc(), 7, SEED));
    let three = quorum_of(rt.alloc(), &rt, &seals, &[0, 1, 3])?;
    assert!(rt; quorum_holds(&seals, 1, SiteId(0), b"STEWARD1", &three));
    assert!(rt; !quorum_holds(&seals, 1, SiteId(1), b"STEWARD1", &three));
    assert!(rt; !quorum_holds(&seals, 1, SiteId(0), b"STEWARD2", &three));
    assert!(rt; !quorum_holds(&seals, 2, SiteId(0), b"STEWARD1", &three));
    let site = SiteVoice {
        check: &seals,
        f: 1,
    };
    assert!(rt; holds(&site, 0, &three));
    for others in [[0, 1, 4].as_slice(), &[0, 1], &[0, 1, 2, 3]] {
        let others = quorum_of(rt.alloc(), &rt, &seals, others)?;
        assert!(rt; !holds(&site, 0, &others));
    }
    let solo = SoloVoice { check: &seals };
    for (servers, want) in [
        ([0].as_slice(), true),
        (&[1], false),
        (&[0, 1], false),
        (&[], false),
    ] {
        let quorum = quorum_of(rt.alloc(), &rt, &seals, servers)?;
        assert_eq!(rt; holds(&solo, 0, &quorum), want);
    }
    Ok(())
}

/// What the collector answers, in a word.
fn word(added: Added) -> &'static str {
    match added {
        Added::Complete(_) => "complete",
        Added::Kept => "kept",
        Added::Seen => "seen",
        Added::NotServer => "not server",
    }
}

/// The third share over the same bytes completes the slot, with just those three seals.
#[test]
fn a_quorum_of_equal_shares_completes_a_slot(rt: HostRuntime) -> Result<(), Fail> {
    let seals = KeyedSeals::new(&deployment(rt.alloc(), 7, SEED));
    let mut collector = Collector::new(rt.alloc(), SiteId(0), 1);
    let steps = [
        (3, "STEWARD1", "kept"),
        (1, "STEWARD2", "kept"),
        (4, "STEWARD1", "not server"),
        (1, "STEWARD1", "seen"),
        (0, "STEWARD1", "kept"),
    ];
    for (index, bytes, want) in steps {
        let share = signed(rt.alloc(), &rt, &seals, index)?;
        let looked = collector.look(rt.alloc(), bytes.as_bytes(), &share)?;
        assert_eq!(rt; word(looked), want, "look of {index}");
        let added = collector.add(rt.alloc(), bytes.as_bytes(), &share)?;
        assert_eq!(rt; word(added), want, "add of {index}");
    }
    let mut copy = collector.copy(rt.alloc())?;
    completes(rt.alloc(), &rt, &mut collector, &seals)?;
    completes(rt.alloc(), &rt, &mut copy, &seals)
}

/// The share of server 2 completes this slot, and comes once.
fn completes(
    alloc: Global,
    rt: &impl Abort,
    slot: &mut Collector,
    seals: &KeyedSeals,
) -> Result<(), Fail> {
    let last = signed(alloc, rt, seals, 2)?;
    match slot.add(alloc, b"STEWARD1", &last)? {
        Added::Complete(quorum) => {
            let indices = quorum.as_slice().iter().map(|signed| signed.index);
            assert_eq!(rt;
                indices.collect::<Vec<u8>>(alloc)?.as_slice(),
                [0, 2, 3].as_slice()
            );
            assert!(rt; quorum_holds(seals, 1, SiteId(0), b"STEWARD1", &quorum));
        }
        other => assert_eq!(rt; word(other), "complete"),
    }
    assert_eq!(rt; word(slot.add(alloc, b"STEWARD1", &last)?), "seen");
    Ok(())
}
