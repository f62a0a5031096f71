ghost use Rattle.std.specs.Prelude.{◌≡◌, IfOk};
ghost use Rattle.st_state.specs.HereView.{seat_of};
ghost use Rattle.st_live.specs.Service.{list_serve};
ghost use Rattle.st_server.specs.Bounds.{IsSeat};
ghost use Rattle.st_server.specs.Fresh.{IsFresh};
ghost use Rattle.st_server.specs.Serving.{IsServing};

use st_fields::{Bytes, Seq, WordsError};
use st_message::{Here, Message};
use st_seal::{KeyedSealer, KeyedSeals, Sealer};
use st_server::*;
use st_words::{
    ClientId, Deployment, LocalView, SealKind, ServerId, ServiceKind, Update, View, Who,
};
use std::alloc::Global;
use std::process::Abort;
use std::test::*;

// A server of a site of four, which is the only one: the representative of the leading site.
fn place() -> Here
    ensures fresh { IsFresh result }
    ensures seat { IsSeat (seat_of 1 list_serve result) }
{
    Here {
        id: 7,
        me: ServerId { site: 0, index: 0 },
        sites: 1,
        f: 1,
        view: View(0),
        local: LocalView(0),
        executed: 0,
        leaf: 0,
        capacity: 1_048_576,
    }
}

#[test]
fn a_new_server_executed_nothing(rt: HostRuntime) -> Result<(), Fail> {
    let server = Server::new(rt.alloc(), place(), 1)?;
    assert_eq!(rt; server.log().len(), 0);
    assert_eq!(rt; server.executed_count(), 0);
    assert_eq!(rt; server.views(), (View(0), LocalView(0)));
    assert_eq!(rt; server.next_leaf(), 0);
    assert_eq!(rt; server.pending_count(), 0);
    Ok(())
}

fn deployment(alloc: Global) -> Deployment {
    Deployment {
        id: 7,
        sites: 1,
        f: 1,
        clients: 1,
        service: ServiceKind::List,
        seals: SealKind::Keyed,
        seed: [0; 32],
        faulty: Seq::new(alloc),
        port: 47_000,
    }
}

// The sealer of the deployment's first server.
fn sealer(alloc: Global, rt: &impl Abort) -> Result<KeyedSealer, Fail> {
    let seals = KeyedSeals::new(&deployment(alloc));
    let who = Who::Server(ServerId { site: 0, index: 0 });
    assert!(rt; seals.has(who));
    Ok(seals.sealer(who))
}

fn text(alloc: Global) -> Result<Bytes, WordsError> {
    let text = Seq::from_slice(alloc, b"hi")?;
    Ok(text)
}

fn message_of(op: Bytes, seal: Bytes) -> Message {
    let update = Update {
        client: ClientId(0),
        time: 1,
        op,
    };
    Message::Update { update, seal }
}

fn message(alloc: Global) -> Result<Message, WordsError> {
    let op = text(alloc)?;
    let seal = text(alloc)?;
    Ok(message_of(op, seal))
}

// How many messages go out.
fn sent(
    alloc: Global,
    server: &Server,
    sealer: &mut KeyedSealer,
    message: &Message,
) -> Result<usize, WordsError>
    requires { IsServing server.now }
{
    if sealer.capacity() != server.live.here.capacity {
        return Ok(0);
    }
    let planned = server.plan(alloc, sealer, 7, message)?;
    Ok(planned.plan.outputs.len())
}

fn sent_by_a_new_server(
    alloc: Global,
    sealer: &mut KeyedSealer,
    message: &Message,
) -> Result<usize, WordsError> {
    let server = Server::new(alloc, place(), 1)?;
    sent(alloc, &server, sealer, message)
}

fn sent_first(alloc: Global, sealer: &mut KeyedSealer) -> Result<usize, WordsError> {
    let message = message(alloc)?;
    sent_by_a_new_server(alloc, sealer, &message)
}

#[test]
fn an_update_is_assigned(rt: HostRuntime) -> Result<(), Fail> {
    let alloc = rt.alloc();
    let mut sealer = sealer(alloc, &rt)?;
    let count = sent_first(alloc, &mut sealer)?;
    assert_eq!(rt; count, 1);
    Ok(())
}
