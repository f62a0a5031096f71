use super::*;
use crate::ranges::keeps_ranges;
use st_fields::{Bytes, Seq};
use st_seal::{KeyedSealer, KeyedSeals, Sealer};
use st_words::{
    Deployment, Item, LocalView, Number, SealKind, ServerId, ServiceKind, SiteId, Statement, Value,
    View, Who, statement_bytes,
};
use std::alloc::Global;
use std::process::Abort;
use std::test::*;

fn deployment(alloc: Global) -> Deployment {
    Deployment {
        id: 7,
        sites: 1,
        f: 1,
        clients: 1,
        service: ServiceKind::List,
        seals: SealKind::Keyed,
        seed: [0; 32],
        faulty: Seq::new(alloc),
        port: 47_000,
    }
}

// The sealer of the deployment's first server.
fn sealer(alloc: Global, rt: &impl Abort) -> Result<KeyedSealer, Fail> {
    let seals = KeyedSeals::new(&deployment(alloc));
    let who = Who::Server(ServerId { site: 0, index: 0 });
    assert!(rt; seals.has(who));
    Ok(seals.sealer(who))
}

fn seal_with(
    alloc: Global,
    rt: &impl Abort,
    sealer: &mut KeyedSealer,
    statement: &Statement,
) -> Result<Bytes, Fail> {
    assert!(rt; sealer.capacity() > 3);
    let seal = seal_statement(alloc, sealer, 7, 3, statement)?;
    Ok(seal)
}

fn prepare() -> Statement {
    Statement::Prepare {
        site: SiteId(0),
        view: View(0),
        local: LocalView(0),
        number: Number(1),
        value: Value::Noop,
    }
}

// The seal of scripts/keyed_seals.py.
const SEAL: [u8; 36] = [
    0x00, 0x00, 0x00, 0x03, 0x99, 0x4d, 0x10, 0xc9, 0xcf, 0x4a, 0x56, 0x5d, 0x4a, 0xc4, 0xca, 0x9b,
    0x02, 0xb0, 0x3f, 0x36, 0x33, 0x92, 0xa3, 0xf7, 0x4f, 0x87, 0xbe, 0x38, 0xc2, 0x6b, 0x10, 0x62,
    0x07, 0xd2, 0xad, 0xa7,
];

#[test]
fn a_prepare_is_sealed(rt: HostRuntime) -> Result<(), Fail> {
    let alloc = rt.alloc();
    let mut sealer = sealer(alloc, &rt)?;
    let seal = seal_with(alloc, &rt, &mut sealer, &prepare())?;
    assert_eq!(rt; seal.as_slice(), SEAL.as_slice());
    Ok(())
}

fn request() -> Statement {
    Statement::LocalVc {
        site: SiteId(0),
        local: LocalView(1),
    }
}

// The one item of a report that entered the first local view.
fn item() -> Item {
    Item {
        number: Number(1),
        view: View(0),
        local: LocalView(0),
        value: Value::Noop,
    }
}

fn report(alloc: Global) -> Result<Statement, Fail> {
    let mut items = Seq::new(alloc);
    items.push(item())?;
    Ok(Statement::LocalReport {
        site: SiteId(0),
        local: LocalView(1),
        index: 0,
        view: View(0),
        base: 0,
        items,
    })
}

// The statement keeps its ranges, and the seal over it is the sealer's over its bytes.
#[tactic(auto, using(crate::proofs::RangesLaws::ranges_kept))]
fn is_sealed_as_spelled(alloc: Global, rt: &impl Abort, statement: &Statement) -> Result<(), Fail> {
    assert!(rt; keeps_ranges(statement));
    let bytes = statement_bytes(alloc, 7, statement)?;
    let mut sealer = sealer(alloc, rt)?;
    let seal = seal_with(alloc, rt, &mut sealer, statement)?;
    let expected = sealer.seal(alloc, 3, bytes.as_slice())?;
    assert_eq!(rt; seal.as_slice(), expected.as_slice());
    Ok(())
}

#[test]
fn requests_and_reports_are_sealed(rt: HostRuntime) -> Result<(), Fail> {
    let alloc = rt.alloc();
    is_sealed_as_spelled(alloc, &rt, &request())?;
    is_sealed_as_spelled(alloc, &rt, &report(alloc)?)?;
    sealed_as_spelled();
    Ok(())
}
