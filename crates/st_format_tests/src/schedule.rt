use st_fields::{Copied, Seq};
use st_message::{Outcome, Reason};
use st_schedule::{Done, Line, ScheduleError, line_text, lines_are_read_back, read_line};
use st_words::ClientId;
use std::test::*;

#[test]
fn a_copy_says_the_same(rt: HostRuntime) -> Result<(), Fail> {
    let alloc = rt.alloc();
    let shown = Done::Shown(Seq::from_slice(alloc, b"STM1")?);
    match shown.copy(alloc)? {
        Done::Shown(bytes) => assert!(rt; bytes.as_slice() == b"STM1".as_slice()),
        _ => assert!(rt; false),
    }
    let flowed = Done::Flowed {
        pairs: 7,
        did: 4,
        ignored: 2,
    };
    assert!(rt;
        matches!(
            flowed.copy(alloc)?,
            Done::Flowed {
                pairs: 7,
                did: 4,
                ignored: 2
            }
        )
    );
    let ignored = Done::Outcome(Outcome::Ignored(Reason::Seen));
    assert!(rt;
        matches!(
            ignored.copy(alloc)?,
            Done::Outcome(Outcome::Ignored(Reason::Seen))
        )
    );
    assert!(rt; matches!(Done::Sent(65_535).copy(alloc)?, Done::Sent(65_535)));
    assert!(rt; matches!(Done::Full.copy(alloc)?, Done::Full));
    Ok(())
}

#[test]
fn events_and_skipped_lines_are_read(rt: HostRuntime) -> Result<(), Fail> {
    let alloc = rt.alloc();
    match &read_line(alloc, "client 63 6869")? {
        Some(Line::Client { client, op }) => {
            assert_eq!(rt; *client, ClientId(63));
            assert!(rt; op.as_slice() == b"hi".as_slice());
        }
        _ => assert!(rt; false),
    }
    match &read_line(alloc, "client 0 -")? {
        Some(Line::Client { op, .. }) => assert!(rt; op.is_empty()),
        _ => assert!(rt; false),
    }
    assert!(rt;
        matches!(
            read_line(alloc, "flow 4000000")?,
            Some(Line::Flow { pairs: 4_000_000 })
        )
    );
    for text in ["", "#", "# client 0 aa"] {
        assert!(rt; read_line(alloc, text)?.is_none(), "{text}");
    }
    Ok(())
}

#[test]
fn texts_out_of_the_grammar_are_refused(rt: HostRuntime) -> Result<(), Fail> {
    let texts = [
        " ",
        "flow",
        "flow 0",
        "flow 01",
        "flow 4000001",
        "flow 1.0",
        "flow  3",
        " flow 3",
        "flow 3 ",
        "Flow 3",
        "flows 3",
        "client 0",
        "client 0 ",
        "client 0 a",
        "client 0 zz",
        "client 0  aa",
        "client 0\taa",
        "client 256 aa",
        "client 00 aa",
        "client 0 aa bb",
        "client 0 --",
        "raw 0.0 0",
        "raw 0 00",
        "deliver 0 256.0",
        "deliver 4294967296 c0",
        "drop 0 c",
        "lose c256",
        "lose 0.0.0",
        "tick .0",
        "timeout 0.0 both",
        "stop 0.0 0",
        "stop 0.0 65537",
        "restart 0.0",
        "seal 0.0 0b00",
        "show -",
    ];
    for text in texts {
        let read = read_line(rt.alloc(), text);
        assert!(rt; matches!(read, Err(ScheduleError::BadLine)), "{text}");
    }
    Ok(())
}

/// An operation of 1,024 bytes is taken, and one of 1,025 isn't.
#[test]
fn operations_have_a_bound(rt: HostRuntime) -> Result<(), Fail> {
    let alloc = rt.alloc();
    let mut text = String::from_str(alloc, "client 0 ")?;
    for _ in 0..1_024 {
        text.push_str("0f")?;
    }
    match &read_line(alloc, &text)? {
        Some(Line::Client { op, .. }) => {
            let whole = Seq::from_vec(vec![in alloc; 15; 1_024]?);
            assert!(rt; op.as_slice() == whole.as_slice());
        }
        _ => assert!(rt; false),
    }
    text.push_str("0f")?;
    assert!(rt; matches!(read_line(alloc, &text), Err(ScheduleError::BadLine)));
    Ok(())
}

/// A line is read, and printed as it was written.
#[test]
fn lines_are_printed_as_they_were_read(rt: HostRuntime) -> Result<(), Fail> {
    let alloc = rt.alloc();
    let texts = [
        "client 63 6869",
        "deliver 65535 6.2",
        "drop 0 c63",
        "lose c0",
        "flow 4000000",
        "timeout 0.0 local",
        "timeout 0.3 global",
        "tick 1.2",
        "stop 0.1 65536",
        "restart 0.0 kept",
        "restart 0.0 lost",
        "seal 0.0 01000000000000000000000000110100000000010001aa",
        "raw 0.0 -",
        "show 0",
    ];
    for text in texts {
        match &read_line(alloc, text)? {
            Some(line) => {
                let printed = line_text(alloc, line)?;
                assert!(rt; printed.as_slice() == text.as_bytes(), "{text}");
            }
            None => assert!(rt; false, "{text}"),
        }
    }
    Ok(())
}

#[test]
fn laws_ask_nothing(rt: HostRuntime) {
    lines_are_read_back();
    assert!(rt; true);
}
