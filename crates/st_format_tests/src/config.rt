use st_config::{ConfigError, is_built, read_header};
use st_schedule::{Dest, Line};
use st_words::{ClientId, SealKind, ServerId};
use std::test::Fail;

const SEED: &str = "seed = \"00000000000000000000000000000000000000000000000000000000000000fF\"\n";

#[test]
fn a_header_is_read(rt: HostRuntime) -> Result<(), Fail> {
    let alloc = rt.alloc();
    let text = format!(in alloc;
        "id = 7\nsites = 1\nf = 0\nclients = 1\nservice = \"list\"\r\nseals = \"keyed\"\n{SEED}"
    )?;
    let deployment = read_header(alloc, &text).ok().ok_or("taken")?;
    assert_eq!(rt; deployment.id, 7);
    assert_eq!(rt; deployment.clients, 1);
    assert_eq!(rt; deployment.seals, SealKind::Keyed);
    assert_eq!(rt; deployment.seed[31], 255);
    assert_eq!(rt; deployment.port, 47_000);
    Ok(())
}

#[test]
fn a_header_with_hss_seals_is_read(rt: HostRuntime) -> Result<(), Fail> {
    let alloc = rt.alloc();
    let text = format!(in alloc;
        "id = 7\nsites = 1\nf = 0\nclients = 1\nservice = \"list\"\nseals = \"hss\"\nheight = 5\nwidth = 4\nlevels = 1\n{SEED}"
    )?;
    let deployment = read_header(alloc, &text).ok().ok_or("taken")?;
    let kind = SealKind::Hss {
        height: 5,
        width: 4,
        levels: 1,
    };
    assert_eq!(rt; deployment.seals, kind);
    assert_eq!(rt; deployment.seed[31], 255);
    Ok(())
}

/// Keyed seals have no keys to say, and HSS seals have all three lines, each a choice.
#[test]
fn other_texts_are_not_taken(rt: HostRuntime) -> Result<(), Fail> {
    let alloc = rt.alloc();
    let seals = [
        "seals = \"keyed\"\nheight = 5\nwidth = 4\nlevels = 1\n",
        "seals = \"keyed\"\nheight = 5\n",
        "seals = \"hss\"\n",
        "seals = \"hss\"\nwidth = 4\nlevels = 1\n",
        "seals = \"hss\"\nheight = 6\nwidth = 4\nlevels = 1\n",
        "seals = \"hss\"\nheight = 5\nwidth = 5\nlevels = 1\n",
        "seals = \"hss\"\nheight = 5\nwidth = 4\nlevels = 3\n",
        "seals = \"hss\"\nwidth = 4\nheight = 5\nlevels = 1\n",
    ];
    for lines in seals {
        let text = format!(in alloc;
            "id = 7\nsites = 1\nf = 0\nclients = 1\nservice = \"list\"\n{lines}{SEED}"
        )?;
        let read = read_header(alloc, &text);
        assert!(rt; matches!(read, Err(ConfigError::NotTaken)), "{lines}");
    }
    assert!(rt; matches!(read_header(alloc, "id = 7\n"), Err(ConfigError::NotTaken)));
    Ok(())
}

#[test]
fn some_lines_are_taken(rt: HostRuntime) {
    let server = ServerId { site: 0, index: 0 };
    let to = Dest::Client(ClientId(1));
    assert!(rt; is_built(&Line::Deliver { message: 3, to }));
    assert!(rt; is_built(&Line::Drop { message: 3, to }));
    assert!(rt; is_built(&Line::Lose { to }));
    assert!(rt; is_built(&Line::Show { message: 3 }));
    assert!(rt; !is_built(&Line::Tick { server }));
    assert!(rt; !is_built(&Line::Stop { server, call: 1 }));
}
