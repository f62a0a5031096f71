//! The bytes, the places of faults and the places of seals stand as `scripts/wire_bytes.py` prints them.

use st_fields::{Bytes, Seq};
use st_wire::*;
use st_words::{ClientId, Deployment, SealKind, ServerId, ServiceKind, StatementKind, Who};
use std::alloc::{AllocError, Global};
use std::test::*;

// The Update of the smallest input: 25 bytes, and client 0's seal with leaf 0.
const SMALLEST: &[u8] =
    b"STM1\0\0\0\0\0\0\0\x07\x01\x01\0\0\0\0\x01\0\x02hi\0$\0\0\0\0\xa3J\xdf\xda\xdb_\x01\xb3t\0)C\x89\xaee\xdc\xa5\xf91\x03lsI\x07\x01\xc8\xd12`'_\xba";

const UPDATE: &[u8] = b"STM1\0\0\0\0\0\0\0\x07\x01\x01\0\0\0\0\x01\0\x02hi\0\x04seal";

const ASSIGN: &[u8] =
    b"STM1\0\0\0\0\0\0\0\x07\x02\0\0\0\0\0\0\0\0\0\0\0\x01\x01\0\0\0\0\x01\0\x02hi\0\x02cl\0\0\x03rep";

const ASSIGN_NOOP: &[u8] =
    b"STM1\0\0\0\0\0\0\0\x07\x02\0\0\0\x04\0\0\0\0\0\0\0\x01\0\0\0\x01\0\x03rep";

const SHARE: &[u8] =
    b"STM1\0\0\0\0\0\0\0\x07\x03\x01\0\0\0\0\0\0\0\0\0\0\0\0\x01\x01\0\0\0\0\x01\0\x02hi\x02\0\x02ab";

const CERTIFICATE: &[u8] =
    b"STM1\0\0\0\0\0\0\0\x07\x04\x03\x02\0\0\0\x01\0\0\0\x03\x01\0\0\0\0\x01\0\x02hi\x03\0\0\x01a\x01\0\x01b\x03\0\x01c";

const ORDER_PROOF: &[u8] =
    b"STM1\0\0\0\0\0\0\0\x07\x05\0\0\0\x09\0\0\0\x02\x01\0\0\0\0\x01\0\x02hi\x02\0\x02\x01\0\x01p\x03\0\x02qq\x04\x01\0\0\x01r";

const REPORT: &[u8] =
    b"STM1\0\0\0\0\0\0\0\x07\x06\x06\x01\0\0\0\x02\x03\0\0\0\x02\0\0\0\x03\x01\0\0\0\x04\0\0\0\x02\0\0\0\0\0\0\x02s3\x02\0\0\x01i\x02\0\x01j\0\0\0\x02\x01\0\0\0\0\x01\0\x02hi\x02\0\x02\x01\0\x01p\x03\0\x02qq\x04\x01\0\0\x01r";

const BUNDLE: &[u8] =
    b"STM1\0\0\0\0\0\0\0\x07\x07\x02\x06\x01\0\0\0\x02\0\0\0\0\x02\0\0\0\0\0\0\x02s0\x06\x01\0\0\0\x02\x02\0\0\0\x02\0\0\0\0\0\0\x02s2";

const LOCAL_VIEW: &[u8] = b"STM1\0\0\0\0\0\0\0\x07\x08\0\x04\x01\0\0\0\x05\x02\0\0\x01x\x02\0\x01y";

const VIEW: &[u8] =
    b"STM1\0\0\0\0\0\0\0\x07\x08\x01\0\0\0\x06\x02\x01\x01\0\0\x01m\x02\x01\0\0\x01n";

const ASK: &[u8] = b"STM1\0\0\0\0\0\0\0\x07\x09\x01\x02\0\0\0\x03\0\0\0\x04\0\0\0\x05";

const REPLY: &[u8] =
    b"STM1\0\0\0\0\0\0\0\x07\x0a\x0a\x02\x03\0\0\0\x09\0\0\0\x04\0\x02ok\x01\0\x04done";

/// The bytes of a message of deployment 7, again.
fn again(alloc: Global, bytes: &[u8]) -> Result<Bytes, MessageError> {
    let message = decode(alloc, 7, bytes)?;
    encode(alloc, 7, &message)
}

/// The kind of a message of deployment 7.
fn kind(alloc: Global, bytes: &[u8]) -> Result<MessageKind, MessageError> {
    let message = decode(alloc, 7, bytes)?;
    Ok(MessageKind::of(&message))
}

#[test]
fn each_kind_both_ways(rt: HostRuntime) -> Result<(), Fail> {
    let table: [&[u8]; 13] = [
        SMALLEST,
        UPDATE,
        ASSIGN,
        ASSIGN_NOOP,
        SHARE,
        CERTIFICATE,
        ORDER_PROOF,
        REPORT,
        BUNDLE,
        LOCAL_VIEW,
        VIEW,
        ASK,
        REPLY,
    ];
    for bytes in table {
        match again(rt.alloc(), bytes) {
            Ok(spelled) => assert!(rt; spelled.as_slice() == bytes),
            Err(_) => assert!(rt; false),
        }
    }
    Ok(())
}

#[test]
fn a_message_is_of_its_kind(rt: HostRuntime) {
    assert!(rt; matches!(kind(rt.alloc(), SMALLEST), Ok(MessageKind::Update)));
    assert!(rt; matches!(kind(rt.alloc(), ASK), Ok(MessageKind::Ask)));
}

/// Why the bytes are no message of a deployment.
fn fault(alloc: Global, id: u64, bytes: &[u8]) -> Option<MessageError> {
    decode(alloc, id, bytes).err()
}

#[test]
fn truncated_trailing_and_another_deployments(rt: HostRuntime) -> Result<(), Fail> {
    let mut longer = Vec::from_slice(rt.alloc(), SMALLEST)?;
    longer.push(0)?;
    // Malformed goes before another deployment.
    let table: [(u64, &[u8], MessageError); 4] = [
        (7, &SMALLEST[..60], MessageError::Malformed { place: 25 }),
        (7, longer.as_slice(), MessageError::Malformed { place: 61 }),
        (8, SMALLEST, MessageError::WrongDeployment { id: 7 }),
        (8, &SMALLEST[..60], MessageError::Malformed { place: 25 }),
    ];
    for (id, bytes, error) in table {
        assert_eq!(rt; fault(rt.alloc(), id, bytes), Some(error));
    }
    Ok(())
}

#[test]
fn too_long(rt: HostRuntime) -> Result<(), Fail> {
    let bytes = vec![in rt.alloc(); 0u8; 4_194_305]?;
    let error = fault(rt.alloc(), 7, bytes.as_slice());
    assert_eq!(rt; error, Some(MessageError::TooLong { bytes: 4_194_305 }));
    let error = fault(rt.alloc(), 7, &bytes[1..]);
    assert_eq!(rt; error, Some(MessageError::Malformed { place: 0 }));
    Ok(())
}

/// `bytes` with `new` at offset `at`.
fn changed(alloc: Global, bytes: &[u8], at: usize, new: &[u8]) -> Result<Vec<u8>, AllocError> {
    let mut changed = Vec::from_slice(alloc, bytes)?;
    for (k, byte) in new.iter().enumerate() {
        let place = at.saturating_add(k);
        if place < changed.len() {
            changed[place] = *byte;
        }
    }
    Ok(changed)
}

#[test]
fn faults_are_placed(rt: HostRuntime) -> Result<(), Fail> {
    let table: [(&[u8], usize, &[u8]); 29] = [
        (UPDATE, 12, b"\0"),
        (UPDATE, 12, b"\x0b"),
        (UPDATE, 13, b"\0"),
        (UPDATE, 23, b"\0\0"),
        (UPDATE, 23, b"\x13\xd5"),
        (ASSIGN, 21, b"\0\0\0\0"),
        (ASSIGN_NOOP, 26, b"\0\x01"),
        (SHARE, 13, b"\x06"),
        (SHARE, 13, b"\x0b"),
        (CERTIFICATE, 13, b"\x04"),
        (CERTIFICATE, 33, b"\0"),
        (CERTIFICATE, 38, b"\0"),
        (ORDER_PROOF, 13, b"\0\0\0\0"),
        (ORDER_PROOF, 31, b"\0"),
        (ORDER_PROOF, 38, b"\x01"),
        (ORDER_PROOF, 43, b"\0"),
        (REPORT, 13, b"\x03"),
        (REPORT, 46, b"\0"),
        (BUNDLE, 13, b"\0"),
        (BUNDLE, 34, b"\x07"),
        (BUNDLE, 35, b"\x02"),
        (BUNDLE, 36, b"\0\0\0\x01"),
        (BUNDLE, 36, b"\0\0\0\x03"),
        (BUNDLE, 40, b"\0"),
        (LOCAL_VIEW, 13, b"\x02"),
        (LOCAL_VIEW, 14, b"\x05"),
        (VIEW, 14, b"\0\0\0\0"),
        (REPLY, 13, b"\x03"),
        (UPDATE, 0, b"T"),
    ];
    for (bytes, place, new) in table {
        let bytes = changed(rt.alloc(), bytes, place, new)?;
        let error = fault(rt.alloc(), 7, bytes.as_slice());
        assert_eq!(rt;
            error,
            Some(MessageError::Malformed { place }),
            "at {place}"
        );
    }
    Ok(())
}

/// The seals in a message of deployment 7, of three sites.
fn seals(alloc: Global, bytes: &[u8]) -> Result<SealsIn, MessageError> {
    let d = Deployment {
        id: 7,
        sites: 3,
        f: 1,
        clients: 1,
        service: ServiceKind::List,
        seals: SealKind::Keyed,
        seed: [0; 32],
        faulty: Seq::new(alloc),
        port: 47_000,
    };
    let message = decode(alloc, d.id, bytes)?;
    seals_in(alloc, &d, &message)
}

/// Where its seals stand.
fn places(alloc: Global, bytes: &[u8]) -> Result<Vec<usize>, MessageError> {
    let mut places = Vec::new(alloc);
    for seal in seals(alloc, bytes)?.as_slice() {
        places.push(seal.place)?;
    }
    Ok(places)
}

#[test]
fn seals_of_one_statement_stand_where_they_are_found(rt: HostRuntime) -> Result<(), Fail> {
    let table: [(&[u8], &[usize]); 8] = [
        (UPDATE, &[25]),
        (ASSIGN, &[37, 42]),
        (ASSIGN_NOOP, &[31]),
        (SHARE, &[40]),
        (CERTIFICATE, &[37, 41, 45]),
        (LOCAL_VIEW, &[24, 28]),
        (ASK, &[]),
        (REPLY, &[31]),
    ];
    for (bytes, wanted) in table {
        let found = places(rt.alloc(), bytes).ok().ok_or("seals")?;
        assert!(rt; found.as_slice() == wanted);
    }
    Ok(())
}

#[test]
fn seals_of_many_statements_stand_where_they_are_found(rt: HostRuntime) -> Result<(), Fail> {
    let table: [(&[u8], &[usize]); 4] = [
        (ORDER_PROOF, &[37, 41, 48]),
        (REPORT, &[44, 50, 54, 75, 79, 86]),
        (BUNDLE, &[32, 52]),
        (VIEW, &[24, 30]),
    ];
    for (bytes, wanted) in table {
        let found = places(rt.alloc(), bytes).ok().ok_or("seals")?;
        assert!(rt; found.as_slice() == wanted);
    }
    Ok(())
}

/// Who sealed as seal `k`, and what.
fn sealed(
    alloc: Global,
    bytes: &[u8],
    k: usize,
) -> Result<Option<(Who, StatementKind)>, MessageError> {
    let seals = seals(alloc, bytes)?;
    Ok(seals.get(k).map(|seal| (seal.who, seal.statement.kind())))
}

const fn server(site: u8, index: u8) -> Who {
    Who::Server(ServerId { site, index })
}

#[test]
fn seals_are_their_parties(rt: HostRuntime) -> Result<(), Fail> {
    let client = Who::Client(ClientId(0));
    // The leader site of view 4 of three sites is site 1.
    let table: [(&[u8], usize, Who, StatementKind); 7] = [
        (ASSIGN, 0, client, StatementKind::ClientUpdate),
        (ASSIGN, 1, server(0, 0), StatementKind::Prepare),
        (ASSIGN_NOOP, 0, server(1, 1), StatementKind::Prepare),
        (REPORT, 0, server(1, 3), StatementKind::LocalReport),
        (REPORT, 2, server(1, 2), StatementKind::Prepare),
        (REPORT, 4, server(0, 3), StatementKind::Accept),
        (REPORT, 5, server(4, 0), StatementKind::Accept),
    ];
    for (bytes, k, who, kind) in table {
        let found = sealed(rt.alloc(), bytes, k).ok().ok_or("seals")?;
        assert_eq!(rt; found, Some((who, kind)));
    }
    Ok(())
}

#[test]
fn laws(_rt: HostRuntime) {
    read_back();
    read_elsewhere();
    no_proper_prefix();
    one_message();
    pieces_are_the_spelling();
    seals_stand();
}
