ghost use Rattle.std.specs.Prelude.{◌≤◌};
ghost use Rattle.st_words.specs.Ranges.{KeepsStatement};

use st_fields::{Same, Seq};
use st_made::Made;
use st_words::{
    ClientId, LocalView, Number, ServerId, SiteId, Statement, Update, Value, View, Who,
};
use std::alloc::Global;
use std::test::*;

fn update_of(alloc: Global, time: u32) -> Statement
    requires { 1 ≤ time }
    ensures { KeepsStatement result }
{
    Statement::ClientUpdate {
        update: Update {
            client: ClientId(2),
            time,
            op: Seq::new(alloc),
        },
    }
}

#[test]
fn a_client_hands_out_an_update(rt: HostRuntime) -> Result<(), Fail> {
    let alloc = rt.alloc();
    let client = Who::Client(ClientId(2));
    let mut made = Made::new(alloc);
    let update = update_of(alloc, 1);
    assert!(rt; !made.has(alloc, client, &update)?);
    made.hand(alloc, client, 0, &update)?;
    assert!(rt; made.has(alloc, client, &update)?);
    Ok(())
}

#[test]
fn an_update_of_another_time_is_not_handed_out(rt: HostRuntime) -> Result<(), Fail> {
    let alloc = rt.alloc();
    let client = Who::Client(ClientId(2));
    let mut made = Made::new(alloc);
    made.hand(alloc, client, 0, &update_of(alloc, 1))?;
    assert!(rt; !made.has(alloc, client, &update_of(alloc, 2))?);
    Ok(())
}

#[test]
fn a_server_hands_out_a_prepare(rt: HostRuntime) -> Result<(), Fail> {
    let alloc = rt.alloc();
    let server = Who::Server(ServerId { site: 2, index: 0 });
    let prepare = Statement::Prepare {
        site: SiteId(2),
        view: View(2),
        local: LocalView(0),
        number: Number(7),
        value: Value::Noop,
    };
    let proposal = Statement::Proposal {
        site: SiteId(2),
        view: View(2),
        local: LocalView(0),
        number: Number(7),
        value: Value::Noop,
    };
    let mut made = Made::new(alloc);
    made.hand(alloc, server, 0, &prepare)?;
    assert!(rt; made.has(alloc, server, &prepare)?);
    assert!(rt; !made.has(alloc, server, &proposal)?);
    assert!(rt; !made.has(alloc, Who::Server(ServerId { site: 2, index: 1 }), &prepare)?);
    assert!(rt; !made.has(alloc, Who::Client(ClientId(2)), &prepare)?);
    Ok(())
}

#[test]
fn a_seal_is_noted_once_with_each_leaf(rt: HostRuntime) -> Result<(), Fail> {
    let alloc = rt.alloc();
    let client = Who::Client(ClientId(2));
    let update = update_of(alloc, 1);
    let mut made = Made::new(alloc);
    made.hand(alloc, client, 4, &update)?;
    made.hand(alloc, client, 4, &update)?;
    made.hand(alloc, client, 7, &update)?;
    made.hand(alloc, client, 7, &update)?;
    let seals = made.as_slice();
    assert_eq!(rt; seals.len(), 2);
    assert!(rt; seals[0].who == client);
    assert_eq!(rt; seals[0].leaf, 4);
    assert_eq!(rt; seals[1].leaf, 7);
    assert!(rt; seals[1].statement.same(&update));
    Ok(())
}
