use st_input::{InputError, InputFault, read_input};
use st_schedule::Line;
use st_words::SealKind;
use std::test::Fail;

const FRONT: &str = "id = 7\nsites = 1\nf = 0\nclients = 1\nservice = \"list\"\n";

const KEYED: &str = "seals = \"keyed\"\n";

const HSS: &str = "seals = \"hss\"\nheight = 10\nwidth = 8\nlevels = 2\n";

const SEED: &str = "seed = \"0000000000000000000000000000000000000000000000000000000000000000\"\n";

#[test]
fn an_input_is_read(rt: HostRuntime) -> Result<(), Fail> {
    let alloc = rt.alloc();
    let text = format!(in alloc; "{FRONT}{KEYED}{SEED}---\r\nclient 0 6869\n\n# then\nflow 50")?;
    let input = read_input(alloc, text.as_bytes()).ok().ok_or("read")?;
    assert_eq!(rt; input.deployment.id, 7);
    match input.lines.as_slice() {
        [a, b] => {
            assert_eq!(rt; (a.number, b.number), (9, 12));
            assert!(rt; matches!(&b.line, Line::Flow { pairs: 50 }));
        }
        _ => assert!(rt; false),
    }
    Ok(())
}

/// A header with HSS seals has three lines more, and its event lines begin three lines below.
#[test]
fn an_input_with_hss_seals_is_read(rt: HostRuntime) -> Result<(), Fail> {
    let alloc = rt.alloc();
    let text = format!(in alloc; "{FRONT}{HSS}{SEED}---\nshow 0\n")?;
    let input = read_input(alloc, text.as_bytes()).ok().ok_or("read")?;
    let kind = SealKind::Hss {
        height: 10,
        width: 8,
        levels: 2,
    };
    assert_eq!(rt; input.deployment.seals, kind);
    match input.lines.as_slice() {
        [a] => {
            assert_eq!(rt; a.number, 12);
            assert!(rt; matches!(&a.line, Line::Show { message: 0 }));
        }
        _ => assert!(rt; false),
    }
    Ok(())
}

#[test]
fn lines_that_move_messages_are_read(rt: HostRuntime) -> Result<(), Fail> {
    let alloc = rt.alloc();
    let text = format!(in alloc;
        "{FRONT}{KEYED}{SEED}---\ndeliver 3 0.0\ndrop 4 c0\nlose c0\nraw 0.0 aa\n"
    )?;
    let input = read_input(alloc, text.as_bytes()).ok().ok_or("read")?;
    match input.lines.as_slice() {
        [a, b, c, d] => {
            assert!(rt; matches!(&a.line, Line::Deliver { message: 3, .. }));
            assert!(rt; matches!(&b.line, Line::Drop { message: 4, .. }));
            assert!(rt; matches!(&c.line, Line::Lose { .. }));
            assert!(rt; matches!(&d.line, Line::Raw { .. }));
        }
        _ => assert!(rt; false),
    }
    Ok(())
}

#[test]
fn the_first_fault_is_answered(rt: HostRuntime) -> Result<(), Fail> {
    let alloc = rt.alloc();
    let text = format!(in alloc; "{FRONT}{KEYED}{SEED}---\n# first\nflow 050\nflow 051\n")?;
    let read = read_input(alloc, text.as_bytes());
    assert!(rt;
        matches!(
            read,
            Err(InputError::Fault(InputFault::Grammar { line: 10 }))
        )
    );
    Ok(())
}

#[test]
fn lines_that_are_not_taken_are_a_fault(rt: HostRuntime) -> Result<(), Fail> {
    let alloc = rt.alloc();
    for line in [
        "timeout 0.0 local",
        "tick 0.0",
        "stop 0.0 1",
        "restart 0.0 kept",
    ] {
        let text = format!(in alloc; "{FRONT}{KEYED}{SEED}---\n{line}\n")?;
        let read = read_input(alloc, text.as_bytes());
        assert!(rt;
            matches!(
                read,
                Err(InputError::Fault(InputFault::NotBuilt { line: 9 }))
            ),
            "{line}"
        );
    }
    Ok(())
}

#[test]
fn other_headers_are_a_fault(rt: HostRuntime) -> Result<(), Fail> {
    let alloc = rt.alloc();
    let text = format!(in alloc; "{FRONT}{KEYED}height = 10\nwidth = 8\nlevels = 2\n{SEED}---\n")?;
    let read = read_input(alloc, text.as_bytes());
    assert!(rt; matches!(read, Err(InputError::Fault(InputFault::Deployment))));
    Ok(())
}
