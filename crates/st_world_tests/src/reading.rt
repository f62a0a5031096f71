//! The bytes of the smallest input's first message, and of others that `scripts/wire_bytes.py` prints.

use st_fields::Seq;
use st_hss_seal::{DeploymentSeals, is_choice};
use st_message::{Message, Reason, Refused};
use st_reading::*;
use st_seal::KeyedSeals;
use st_wire::{MessageError, decode};
use st_words::{Deployment, LocalView, SealKind, ServerId, ServiceKind, View};
use std::alloc::Global;
use std::process::Abort;
use std::test::*;

// The Update of the smallest input: 25 bytes, and client 0's seal with leaf 0.
const SMALLEST: &[u8; 61] =
    b"STM1\0\0\0\0\0\0\0\x07\x01\x01\0\0\0\0\x01\0\x02hi\0$\0\0\0\0\xa3J\xdf\xda\xdb_\x01\xb3t\0)C\x89\xaee\xdc\xa5\xf91\x03lsI\x07\x01\xc8\xd12`'_\xba";

// A Prepare's share, of site 0 in view 0, by its server 2.
const SHARE: &[u8] =
    b"STM1\0\0\0\0\0\0\0\x07\x03\x01\0\0\0\0\0\0\0\0\0\0\0\0\x01\x01\0\0\0\0\x01\0\x02hi\x02\0\x02ab";

// An order proof of two sites, one with two seals.
const ORDER_PROOF: &[u8] =
    b"STM1\0\0\0\0\0\0\0\x07\x05\0\0\0\x09\0\0\0\x02\x01\0\0\0\0\x01\0\x02hi\x02\0\x02\x01\0\x01p\x03\0\x02qq\x04\x01\0\0\x01r";

fn deployment(alloc: Global, sites: u8, f: u8, clients: u8) -> Deployment {
    Deployment {
        id: 7,
        sites,
        f,
        clients,
        service: ServiceKind::List,
        seals: SealKind::Keyed,
        seed: [0; 32],
        faulty: Seq::new(alloc),
        port: 47_000,
    }
}

// Why a client ignores the bytes, where it does.
fn ignored(alloc: Global, d: &Deployment, bytes: &[u8]) -> Option<Reason> {
    match read_known(alloc, d, bytes) {
        Err(Refused::Ignored(reason)) => Some(reason),
        _ => None,
    }
}

#[test]
fn an_update_is_read(rt: HostRuntime) {
    let d = deployment(rt.alloc(), 1, 0, 1);
    let read = read_known(rt.alloc(), &d, SMALLEST);
    assert!(rt; matches!(read, Ok(Message::Update { .. })));
}

#[test]
fn bytes_that_are_no_message_of_the_deployment(rt: HostRuntime) {
    let alloc = rt.alloc();
    let d = deployment(alloc, 1, 0, 1);
    assert!(rt; ignored(alloc, &d, &SMALLEST[..60]) == Some(Reason::Malformed { place: 25 }));
    let mut other = *SMALLEST;
    other[11] = 8;
    assert!(rt; ignored(alloc, &d, &other) == Some(Reason::WrongDeployment { id: 8 }));
}

#[test]
fn what_the_deployment_lacks_is_unknown(rt: HostRuntime) {
    let alloc = rt.alloc();
    let unknown = Some(Reason::Unknown);
    assert!(rt; ignored(alloc, &deployment(alloc, 1, 0, 0), SMALLEST) == unknown);
    assert!(rt; ignored(alloc, &deployment(alloc, 1, 0, 1), SHARE) == unknown);
    assert!(rt; ignored(alloc, &deployment(alloc, 1, 1, 1), SHARE) == None);
    assert!(rt; ignored(alloc, &deployment(alloc, 5, 0, 1), ORDER_PROOF) == unknown);
}

#[test]
fn servers_that_ask_are_known(rt: HostRuntime) {
    let d = deployment(rt.alloc(), 2, 1, 0);
    for (site, index, known) in [(1, 3, true), (2, 0, false), (0, 4, false)] {
        let ask = Message::Ask {
            server: ServerId { site, index },
            executed: 0,
            view: View(0),
            local: LocalView(0),
        };
        assert_eq!(rt; knows(&d, &ask), known);
    }
}

// The bytes as a server reads them.
fn checked(
    alloc: Global,
    rt: &impl Abort,
    d: &Deployment,
    bytes: &[u8],
) -> Result<Message, Refused> {
    assert!(rt; d.sites >= 1);
    assert!(rt; is_choice(d.seals));
    match DeploymentSeals::new(alloc, d) {
        Ok(seals) => read_checked(alloc, &seals, d, bytes),
        Err(_) => Err(Refused::OutOfMemory),
    }
}

#[test]
fn a_seal_that_does_not_check_is_refused_at_its_place(rt: HostRuntime) {
    let alloc = rt.alloc();
    let d = deployment(alloc, 1, 0, 1);
    let read = checked(alloc, &rt, &d, SMALLEST);
    assert!(rt; matches!(read, Ok(Message::Update { .. })));
    let mut forged = *SMALLEST;
    forged[60] = 0;
    let read = checked(alloc, &rt, &d, &forged);
    assert!(rt; matches!(read, Err(Refused::Ignored(Reason::BadSeal { place: 25 }))));
}

// The first seal in a message's bytes that doesn't check.
fn first_bad(
    alloc: Global,
    rt: &impl Abort,
    d: &Deployment,
    bytes: &[u8],
) -> Result<Option<usize>, MessageError> {
    assert!(rt; d.sites >= 1);
    let message = decode(alloc, d.id, bytes)?;
    first_bad_seal(alloc, &KeyedSeals::new(d), d, &message)
}

#[test]
fn seals_are_looked_at_in_byte_order(rt: HostRuntime) {
    let alloc = rt.alloc();
    let d = deployment(alloc, 5, 1, 1);
    assert!(rt; matches!(first_bad(alloc, &rt, &d, ORDER_PROOF), Ok(Some(37))));
    assert!(rt; matches!(first_bad(alloc, &rt, &d, SMALLEST), Ok(None)));
}

#[test]
fn laws_ask_nothing(rt: HostRuntime) {
    sent_messages_are_read();
    read_messages_are_spelled();
    seals_that_stand_are_held();
    assert!(rt; true);
}
