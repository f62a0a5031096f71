//! The bytes and the places stand as `scripts/statement_vectors.py` prints them.

ghost use Rattle.std.specs.Prelude.{IfOk};
ghost use Rattle.st_words.specs.Ranges.{KeepsUpdate};

use st_fields::{Copied, FieldError, Numbered, Same, Seq, WordsError};
use st_words::*;
use std::alloc::{AllocError, Global};
use std::test::*;

const PREPARE: &[u8] =
    b"STEWARD1\0\0\0\0\0\0\0\x07\x01\0\0\0\0\0\0\0\0\0\0\0\0\x01\x01\0\0\0\0\x01\0\x02hi";

const PROPOSAL: &[u8] = b"STEWARD1\0\0\0\0\0\0\0\x07\x02\x01\0\0\0\x01\0\0\0\x02\0\0\0\x03\0";

const ACCEPT: &[u8] =
    b"STEWARD1\0\0\0\0\0\0\0\x07\x03\x02\0\0\0\x01\0\0\0\x03\x01\0\0\0\0\x01\0\x02hi";

const LOCAL_VC: &[u8] = b"STEWARD1\0\0\0\0\0\0\0\x07\x04\x01\0\0\0\x05";

const GLOBAL_VC: &[u8] = b"STEWARD1\0\0\0\0\0\0\0\x07\x05\x02\0\0\xff\xff";

const LOCAL_REPORT: &[u8] =
    b"STEWARD1\0\0\0\0\0\0\0\x07\x06\x01\0\0\0\x02\x03\0\0\0\x02\0\0\0\x03\x02\0\0\0\x04\0\0\0\x02\0\0\0\0\0\0\0\0\x06\0\0\0\x01\0\0\0\x01\x01\0\0\0\0\x01\0\x02hi";

const GLOBAL_REPORT: &[u8] =
    b"STEWARD1\0\0\0\0\0\0\0\x07\x07\x01\0\0\0\x03\0\0\0\0\x03\x02\0\0\0\x04\0\0\0\x02\0\0\0\0\0\0\0\0\x06\0\0\0\x01\0\0\0\x01\x01\0\0\0\0\x01\0\x02hi";

const LOCAL_UNION: &[u8] =
    b"STEWARD1\0\0\0\0\0\0\0\x07\x08\0\0\0\0\x01\0\0\0\x02\0\0\0\x03\x02\0\0\0\x04\0\0\0\x02\0\0\0\0\0\0\0\0\x06\0\0\0\x01\0\0\0\x01\x01\0\0\0\0\x01\0\x02hi";

const GLOBAL_UNION: &[u8] = b"STEWARD1\0\0\0\0\0\0\0\x07\x09\x02\0\0\0\x03\0\0\0\0\0";

const REPLY: &[u8] = b"STEWARD1\0\0\0\0\0\0\0\x07\x0a\x02\x03\0\0\0\x09\0\0\0\x04\0\x02ok";

const CLIENT_UPDATE: &[u8] = b"STEWARD1\0\0\0\0\0\0\0\x07\x0b\xff\x01\0\0\0\0\x01\0\x02hi";

fn hi(alloc: Global) -> Result<Update, WordsError>
    ensures { IfOk result KeepsUpdate }
{
    Ok(Update {
        client: ClientId(0),
        time: 1,
        op: Seq::from_slice(alloc, b"hi")?,
    })
}

#[test]
fn a_prepare_has_its_bytes(rt: HostRuntime) -> Result<(), Fail> {
    let update = hi(rt.alloc()).ok().ok_or("memory")?;
    let prepare = Statement::Prepare {
        site: SiteId(0),
        view: View(0),
        local: LocalView(0),
        number: Number(1),
        value: Value::Update(update),
    };
    let read = read_statement(rt.alloc(), PREPARE);
    let (id, statement) = read.ok().ok_or("the bytes are a statement")?;
    assert_eq!(rt; id, 7);
    assert!(rt; statement.same(&prepare));
    Ok(())
}

#[test]
fn each_kind_both_ways(rt: HostRuntime) -> Result<(), Fail> {
    let table: [(StatementKind, u8, &[u8]); 11] = [
        (StatementKind::Prepare, 1, PREPARE),
        (StatementKind::Proposal, 2, PROPOSAL),
        (StatementKind::Accept, 3, ACCEPT),
        (StatementKind::LocalVc, 4, LOCAL_VC),
        (StatementKind::GlobalVc, 5, GLOBAL_VC),
        (StatementKind::LocalReport, 6, LOCAL_REPORT),
        (StatementKind::GlobalReport, 7, GLOBAL_REPORT),
        (StatementKind::LocalUnion, 8, LOCAL_UNION),
        (StatementKind::GlobalUnion, 9, GLOBAL_UNION),
        (StatementKind::Reply, 10, REPLY),
        (StatementKind::ClientUpdate, 11, CLIENT_UPDATE),
    ];
    for (kind, number, bytes) in table {
        let read = read_statement(rt.alloc(), bytes);
        let (id, statement) = read.ok().ok_or("the bytes are a statement")?;
        assert_eq!(rt; id, 7);
        assert_eq!(rt; statement.kind(), kind);
        assert_eq!(rt; kind.number(), number);
        let again = statement_bytes(rt.alloc(), id, &statement);
        let again = again.ok().ok_or("memory")?;
        assert!(rt; again.as_slice() == bytes, "at {number}");
        let copy = statement.copy(rt.alloc()).ok().ok_or("memory")?;
        assert!(rt; copy.same(&statement), "at {number}");
    }
    Ok(())
}

/// `bytes` with `new` at offset `at`.
fn changed(alloc: Global, bytes: &[u8], at: usize, new: &[u8]) -> Result<Vec<u8>, AllocError> {
    let mut changed = Vec::from_slice(alloc, bytes)?;
    for (k, byte) in new.iter().enumerate() {
        let place = at.saturating_add(k);
        if place < changed.len() {
            changed[place] = *byte;
        } else {
            changed.push(*byte)?;
        }
    }
    Ok(changed)
}

#[test]
fn faults_are_placed(rt: HostRuntime) -> Result<(), Fail> {
    let table: [(&[u8], usize, &[u8], usize); 20] = [
        (PREPARE, 7, b"2", 0),
        (PREPARE, 16, b"\0", 16),
        (PREPARE, 16, b"\x0c", 16),
        (CLIENT_UPDATE, 17, b"\0", 17),
        (CLIENT_UPDATE, 18, b"\0", 18),
        (PREPARE, 26, b"\0\0\0\0", 26),
        (PREPARE, 30, b"\x02", 30),
        (PREPARE, 32, b"\0\0\0\0", 32),
        (PREPARE, 36, b"\x04\x01", 36),
        (PREPARE, 40, b"\0", 40),
        (LOCAL_VC, 18, b"\0\0\0\0", 18),
        (LOCAL_REPORT, 27, b"\xff\xff\xff\xf0", 27),
        (LOCAL_REPORT, 31, b"\x11", 31),
        (LOCAL_REPORT, 45, b"\0\0\0\x04", 45),
        (LOCAL_REPORT, 45, b"\0\0\0\x14", 45),
        (LOCAL_REPORT, 49, b"\0\0\0\x03", 49),
        (LOCAL_REPORT, 53, b"\0\0\0\x02", 53),
        (GLOBAL_REPORT, 45, b"\0\0\0\x03", 45),
        (GLOBAL_UNION, 18, b"\0\0\0\0", 18),
        (REPLY, 27, b"\x04\x01", 27),
    ];
    for (bytes, at, new, place) in table {
        let bytes = changed(rt.alloc(), bytes, at, new)?;
        let read = read_statement(rt.alloc(), bytes.as_slice());
        let error = read.err().ok_or("the bytes are no statement's")?;
        assert_eq!(rt; error, WordsError::Malformed { place }, "at {place}");
    }
    for (count, place) in [(0, 0), (15, 8), (16, 16), (39, 38)] {
        let read = read_statement(rt.alloc(), &PREPARE[..count]);
        let error = read.err().ok_or("the bytes are cut short")?;
        assert_eq!(rt; error, WordsError::Malformed { place }, "cut to {count}");
    }
    Ok(())
}

#[test]
fn cores_and_reports_are_bounded(rt: HostRuntime) -> Result<(), Fail> {
    let alloc = rt.alloc();
    let read = read_statement(alloc, LOCAL_REPORT);
    let (_, report) = read.ok().ok_or("the bytes are a statement")?;
    let mut out = Vec::new(alloc);
    put_core(&mut out, &report)?;
    let core = out.as_slice();
    assert!(rt; core == &LOCAL_REPORT[16..]);
    let kinds = [StatementKind::LocalReport];
    let (again, rest) = read_core(alloc, &kinds, core).ok().ok_or("a report")?;
    assert!(rt; again.same(&report));
    assert!(rt; rest.is_empty());

    // With another kind the kind is the refused field, and behind itself a report's index is.
    let refused = read_core(alloc, &[StatementKind::Prepare], core).err();
    assert_eq!(rt; refused, Some(FieldError::Refused { left: 51 }));
    let any = ReportBounds::any();
    let (again, _) = read_report(alloc, &any, core).ok().ok_or("a report")?;
    assert!(rt; again.same(&report));
    let refused = read_report(alloc, &any.after(&report), core).err();
    assert_eq!(rt; refused, Some(FieldError::Refused { left: 45 }));
    Ok(())
}

#[test]
fn values_both_ways(rt: HostRuntime) -> Result<(), Fail> {
    let alloc = rt.alloc();
    let update = hi(alloc).ok().ok_or("memory")?;
    let mut out = Vec::new(alloc);
    put_update(&mut out, &update)?;
    assert!(rt; out.as_slice() == b"\x01\0\0\0\0\x01\0\x02hi".as_slice());
    let (read, _) = read_update(alloc, out.as_slice()).ok().ok_or("an update")?;
    assert!(rt; read.same(&update));

    let value = Value::Update(update);
    let mut out = Vec::new(alloc);
    put_value(&mut out, &value)?;
    put_value(&mut out, &Value::Noop)?;
    let (read, rest) = read_value(alloc, out.as_slice()).ok().ok_or("a value")?;
    assert!(rt; read.same(&value));
    assert!(rt; rest == b"\0".as_slice());
    Ok(())
}

#[test]
#[tactic(auto, using(st_words::proofs::Kept::kept_values))]
fn items_both_ways(rt: HostRuntime) -> Result<(), Fail> {
    let alloc = rt.alloc();
    let read = read_statement(alloc, LOCAL_REPORT);
    let (_, report) = read.ok().ok_or("the bytes are a statement")?;
    let Statement::LocalReport { items, .. } = &report else {
        return Err(Fail::from("a report"));
    };
    let mut out = Vec::new(alloc);
    put_items(&mut out, items)?;
    assert!(rt; out.as_slice() == &LOCAL_REPORT[31..]);
    let limits = limits_above(3, 2, Some(1));
    let read = read_items(alloc, limits, out.as_slice());
    let (again, rest) = read.ok().ok_or("items")?;
    assert!(rt; again.same(items));
    assert!(rt; rest.is_empty());
    Ok(())
}

#[test]
fn laws(_rt: HostRuntime) {
    no_proper_prefix();
    one_statement();
}

#[test]
fn servers_and_parties_are_compared(rt: HostRuntime) -> Result<(), Fail> {
    let server = ServerId { site: 1, index: 2 };
    let copy = server.copy(rt.alloc())?;
    assert!(rt; copy.same(&server));
    assert!(rt; !copy.same(&ServerId { site: 1, index: 3 }));
    let who = Who::Server(server).copy(rt.alloc())?;
    assert!(rt; who.same(&Who::Server(server)));
    assert!(rt; !who.same(&Who::Client(ClientId(1))));
    Ok(())
}
