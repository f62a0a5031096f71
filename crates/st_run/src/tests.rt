use crate::{Status, run};
use st_fields::{Bytes, Seq, WordsError};
use st_io::{MemorySink, MemorySource};
use std::alloc::Global;
use std::test::Fail;

const HEADER: &str =
    "id = 7\nsites = 1\nf = 0\nclients = 1\nservice = \"list\"\nseals = \"keyed\"\nseed = \"0000000000000000000000000000000000000000000000000000000000000000\"\n---\n";

const USAGE: &[u8] = b"usage: steward replay | demo SEED COUNT | node WHO --turns T\n";

/// How a run with these words and this input ended, and what it wrote.
fn ran(alloc: Global, words: &[&str], input: &[u8]) -> Result<(Status, Bytes), WordsError> {
    let mut list = Vec::new(alloc);
    for word in words {
        list.push(String::from_str(alloc, word)?)?;
    }
    let mut source = MemorySource::new(alloc, input, &[])?;
    let mut sink = MemorySink::new(alloc, 4096, &[])?;
    let status = run(alloc, &list, &mut source, &mut sink);
    let written = Seq::from_vec(Vec::from_slice(alloc, sink.taken())?);
    Ok((status, written))
}

/// The header, and these event lines.
fn input(alloc: Global, lines: &str) -> Result<String, WordsError> {
    let mut text = String::from_str(alloc, HEADER)?;
    text.push_str(lines)?;
    Ok(text)
}

#[test]
fn one_update_runs(rt: HostRuntime) -> Result<(), Fail> {
    let alloc = rt.alloc();
    let text = input(alloc, "client 0 6869\nflow 50\n")?;
    let (status, written) = ran(alloc, &["replay"], text.as_bytes())?;
    assert_eq!(rt; status, Status::Ok);
    let report =
        "deployment 7 sites 1 f 0 clients 1\nline 9 sent 0\nline 10 flow 7 did 7 ignored 0\nserver 0.0 running view 0 local 0 executed 1 leaf 4\nnumber 1 update 0 1 6869 ran 00000001\nclient 0 time 1 number 1 result 00000001\nsent 7 undelivered 0\n";
    assert!(rt; written.as_slice() == report.as_bytes());
    Ok(())
}

#[test]
fn messages_are_moved_shown_and_brought_in(rt: HostRuntime) -> Result<(), Fail> {
    let alloc = rt.alloc();
    let update =
        "53544d310000000000000007010100000000010001bc002400000000334136ce49cc8032e47e88a8a45b3b605046fed9eca8c2e6024e63f50913d7fe";
    let lines = format!(in alloc;
        "client 0 bc\ndrop 0 0.0\nshow 0\nraw 0.0 {update}\nclient 0 5c\ndeliver 2 0.0\nlose 0.0\nraw c0 00\n"
    )?;
    let text = input(alloc, lines.as_str())?;
    let (status, written) = ran(alloc, &["replay"], text.as_bytes())?;
    assert_eq!(rt; status, Status::Ok);
    let report = format!(in alloc;
        "deployment 7 sites 1 f 0 clients 1\nline 9 sent 0\nline 10 dropped 1\nline 11 show {update}\nline 12 did\nline 13 sent 2\nline 14 did\nline 15 dropped 2\nline 16 ignored malformed 0\nserver 0.0 running view 0 local 0 executed 0 leaf 2\nclient 0 time 2 waiting\nsent 4 undelivered 0\n"
    )?;
    assert!(rt; written.as_slice() == report.as_bytes());
    Ok(())
}

#[test]
fn a_forged_seal_ends_the_world(rt: HostRuntime) -> Result<(), Fail> {
    let alloc = rt.alloc();
    // a Share of the server's Prepare of that update at number 2
    let text = input(
        alloc,
        "client 0 aa\nraw 0.0 53544d3100000000000000070301000000000000000000000000020100000000010001aa00002400000000cbdc70323e58634b55b5163fb7a31aec3912efb9ebdd50fe4815f7e0026e9e4e\n",
    )?;
    let (status, written) = ran(alloc, &["replay"], text.as_bytes())?;
    assert_eq!(rt; status.exit_code(), 6);
    assert!(rt; written.as_slice() == b"forged: line 10 place 39\n".as_slice());
    Ok(())
}

#[test]
fn one_update_runs_with_hash_based_seals(rt: HostRuntime) -> Result<(), Fail> {
    let alloc = rt.alloc();
    let text =
        "id = 7\nsites = 1\nf = 0\nclients = 1\nservice = \"list\"\nseals = \"hss\"\nheight = 5\nwidth = 4\nlevels = 1\nseed = \"0000000000000000000000000000000000000000000000000000000000000000\"\n---\nclient 0 6869\nflow 50\n";
    let (status, written) = ran(alloc, &["replay"], text.as_bytes())?;
    assert_eq!(rt; status, Status::Ok);
    let report =
        "deployment 7 sites 1 f 0 clients 1\nline 12 sent 0\nline 13 flow 7 did 7 ignored 0\nserver 0.0 running view 0 local 0 executed 1 leaf 4\nnumber 1 update 0 1 6869 ran 00000001\nclient 0 time 1 number 1 result 00000001\nsent 7 undelivered 0\n";
    assert!(rt; written.as_slice() == report.as_bytes());
    Ok(())
}

#[test]
fn no_event_lines_run_nothing(rt: HostRuntime) -> Result<(), Fail> {
    let alloc = rt.alloc();
    let (status, written) = ran(alloc, &["replay"], HEADER.as_bytes())?;
    assert_eq!(rt; status, Status::Ok);
    let report =
        "deployment 7 sites 1 f 0 clients 1\nserver 0.0 running view 0 local 0 executed 0 leaf 0\nclient 0 time 0 idle\nsent 0 undelivered 0\n";
    assert!(rt; written.as_slice() == report.as_bytes());
    Ok(())
}

#[test]
fn an_operation_has_at_most_1024_bytes(rt: HostRuntime) -> Result<(), Fail> {
    let alloc = rt.alloc();
    let mut text = input(alloc, "client 0 ")?;
    for _byte in 0..1024 {
        text.push_str("ab")?;
    }
    let (status, _) = ran(alloc, &["replay"], text.as_bytes())?;
    assert_eq!(rt; status, Status::Ok);
    text.push_str("ab")?;
    let (status, written) = ran(alloc, &["replay"], text.as_bytes())?;
    assert_eq!(rt; status, Status::BadInput);
    assert!(rt; written.as_slice() == b"bad input: line 9: grammar\n".as_slice());
    Ok(())
}

#[test]
fn faults_before_the_event_lines(rt: HostRuntime) -> Result<(), Fail> {
    let alloc = rt.alloc();
    for (input, wanted) in [
        (b"\xff\n---\n".as_slice(), "bad input: utf-8\n"),
        (b"id = 7\n----\n".as_slice(), "bad input: no separator\n"),
        (
            b"id = 7\n---\nflow\n".as_slice(),
            "bad input: deployment: not-built\n",
        ),
    ] {
        let (status, written) = ran(alloc, &["replay"], input)?;
        assert_eq!(rt; status.exit_code(), 4);
        assert!(rt; written.as_slice() == wanted.as_bytes());
    }
    Ok(())
}

#[test]
fn faults_of_event_lines(rt: HostRuntime) -> Result<(), Fail> {
    let alloc = rt.alloc();
    for (lines, wanted) in [
        (
            "# first\n\nflow 0\nflow 01",
            "bad input: line 11: grammar\n",
        ),
        (
            "flow 1\ntick 0.0\nflow\n",
            "bad input: line 10: not-built\n",
        ),
        ("flow 1\nclient 1 aa\n", "bad input: line 10: reference\n"),
        ("deliver 0 0.0\n", "bad input: line 9: reference\n"),
        ("drop 0 0.0\n", "bad input: line 9: reference\n"),
        ("lose c1\n", "bad input: line 9: reference\n"),
        ("raw 1.0 00\n", "bad input: line 9: reference\n"),
        ("show 0\n", "bad input: line 9: reference\n"),
        (
            "client 1 aa\nflow 1\nflow\n",
            "bad input: line 11: grammar\n",
        ),
    ] {
        let text = input(alloc, lines)?;
        let (status, written) = ran(alloc, &["replay"], text.as_bytes())?;
        assert_eq!(rt; status, Status::BadInput);
        assert!(rt; written.as_slice() == wanted.as_bytes());
    }
    Ok(())
}

/// The header, and a text of so many kibibytes after it.
fn long_input(alloc: Global, kibibytes: u32) -> Result<String, WordsError> {
    let mut block = String::new(alloc);
    for _byte in 0..1024 {
        block.push_str("x")?;
    }
    let mut text = input(alloc, "")?;
    for _block in 0..kibibytes {
        text.push_str(block.as_str())?;
    }
    Ok(text)
}

#[test]
fn a_line_has_at_most_9437184_bytes(rt: HostRuntime) -> Result<(), Fail> {
    let alloc = rt.alloc();
    let mut text = long_input(alloc, 9216)?;
    let (_, written) = ran(alloc, &["replay"], text.as_bytes())?;
    assert!(rt; written.as_slice() == b"bad input: line 9: grammar\n".as_slice());
    text.push_str("x")?;
    let (status, written) = ran(alloc, &["replay"], text.as_bytes())?;
    assert_eq!(rt; status.exit_code(), 10);
    assert!(rt; written.as_slice() == b"too large: line 9\n".as_slice());
    Ok(())
}

#[test]
fn an_input_has_at_most_67108864_bytes(rt: HostRuntime) -> Result<(), Fail> {
    let alloc = rt.alloc();
    let text = long_input(alloc, 65_536)?;
    let (status, written) = ran(alloc, &["replay"], text.as_bytes())?;
    assert_eq!(rt; status, Status::TooLarge);
    assert!(rt; written.as_slice() == b"too large: input\n".as_slice());
    Ok(())
}

#[test]
fn an_input_has_at_most_65536_event_lines(rt: HostRuntime) -> Result<(), Fail> {
    let alloc = rt.alloc();
    let mut text = input(alloc, "# first\n")?;
    for _line in 0..65_537 {
        text.push_str("flow 1\n")?;
    }
    let (status, written) = ran(alloc, &["replay"], text.as_bytes())?;
    assert_eq!(rt; status, Status::TooLarge);
    assert!(rt; written.as_slice() == b"too large: line 65546\n".as_slice());
    Ok(())
}

#[test]
fn message_65537_is_too_much(rt: HostRuntime) -> Result<(), Fail> {
    let alloc = rt.alloc();
    let mut text = input(alloc, "")?;
    for _line in 0..65_535 {
        text.push_str("client 0 aa\n")?;
    }
    text.push_str("flow 4000000\n")?;
    let (status, written) = ran(alloc, &["replay"], text.as_bytes())?;
    assert_eq!(rt; status, Status::TooLarge);
    assert!(rt; written.as_slice() == b"too large: messages\n".as_slice());
    Ok(())
}

#[test]
fn other_words_are_answered_with_the_usage(rt: HostRuntime) -> Result<(), Fail> {
    let alloc = rt.alloc();
    for words in [
        ["replay", "x"].as_slice(),
        &[],
        &["node", "all"],
        &["demo", "07", "40"],
    ] {
        let (status, written) = ran(alloc, words, b"")?;
        assert_eq!(rt; status, Status::Usage);
        assert!(rt; written.as_slice() == USAGE);
    }
    Ok(())
}

#[test]
fn a_failed_write_goes_before_the_answer(rt: HostRuntime) -> Result<(), Fail> {
    let alloc = rt.alloc();
    let words = vec![in alloc; String::from_str(alloc, "replay")?]?;
    let mut source = MemorySource::new(alloc, HEADER.as_bytes(), &[])?;
    let mut sink = MemorySink::new(alloc, 10, &[1])?;
    let status = run(alloc, &words, &mut source, &mut sink);
    assert_eq!(rt; status, Status::WriteFault);
    assert!(rt; sink.taken() == b"deployment".as_slice());
    Ok(())
}

#[test]
fn a_failed_read_writes_nothing(rt: HostRuntime) -> Result<(), Fail> {
    let alloc = rt.alloc();
    let words = vec![in alloc; String::from_str(alloc, "replay")?]?;
    let mut source = MemorySource::new(alloc, b"---\n", &[1])?;
    let mut sink = MemorySink::new(alloc, 64, &[])?;
    let status = run(alloc, &words, &mut source, &mut sink);
    assert_eq!(rt; status.exit_code(), 2);
    assert!(rt; sink.taken().is_empty());
    Ok(())
}
