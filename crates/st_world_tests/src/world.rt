ghost use Rattle.std.specs.Prelude.{◌≡◌, List, IfOk};
ghost use Rattle.st_words.specs.declared.deployment.Deployment.{Deployment};
ghost use Rattle.st_message.specs.declared.change.Change.{Change};
ghost use Rattle.st_config.specs.Built.{IsBuilt};
ghost use Rattle.st_config.specs.Taken.{IsTaken};
ghost use Rattle.st_live.specs.Service.{list_serve};
ghost use Rattle.st_deployment.specs.Deployed.{world_deployment};
ghost use Rattle.st_world.specs.Standing.{IsStanding};

use st_fields::Seq;
use st_schedule::Line;
use st_words::{ClientId, Deployment, Number, SealKind, ServerId, ServiceKind, Who};
use st_world::{ServerState, World, WorldError};
use std::alloc::Global;
use std::test::*;

fn smallest(alloc: Global) -> Deployment
    ensures { IsTaken result }
{
    Deployment {
        id: 7,
        sites: 1,
        f: 0,
        clients: 1,
        service: ServiceKind::List,
        seals: SealKind::Keyed,
        seed: [0; 32],
        faulty: Seq::new(alloc),
        port: 47_000,
    }
}

fn asking(alloc: Global, client: ClientId) -> Line
    ensures { IsBuilt result }
{
    Line::Client {
        client,
        op: Seq::new(alloc),
    }
}

fn flowing() -> Line
    ensures { IsBuilt result }
{
    Line::Flow { pairs: 50 }
}

// A client asked, and all was delivered.
fn asked(alloc: Global) -> Result<World, WorldError>
    ensures { IfOk result IsStanding }
{
    let mut world = World::new(alloc, &smallest(alloc))?;
    world.step(alloc, 1, &asking(alloc, ClientId(0)))?;
    world.step(alloc, 2, &flowing())?;
    Ok(world)
}

fn has_sent(world: &World) -> bool
    requires { IsStanding world.now }
{
    world.counts() == (7, 0) && world.sent(6).is_some() && world.sent(7).is_none()
}

fn has_made(world: &World) -> bool {
    match world.made() {
        [first, _, _, _, _] => first.who == Who::Client(ClientId(0)),
        _ => false,
    }
}

fn has_executed(world: &World, who: ServerId) -> bool {
    match world.executed(who) {
        Some(log) => log.len() == 1,
        None => false,
    }
}

fn runs(world: &World, who: ServerId) -> bool {
    match world.server(who) {
        Some((state, server)) => state == ServerState::Running && server.executed_count() == 1,
        None => false,
    }
}

fn is_answered(world: &World, client: ClientId) -> bool {
    match world.client(client) {
        Some((time, Some((number, result)))) => {
            time == 1 && number == Number(1) && result == [0, 0, 0, 1].as_slice()
        }
        _ => false,
    }
}

#[test]
fn a_world_answers_what_happened(rt: HostRuntime) -> Result<(), Fail> {
    let alloc = rt.alloc();
    let me = ServerId { site: 0, index: 0 };
    let world = asked(alloc)?;
    let messages = has_sent(&world) && has_made(&world);
    let parties = has_executed(&world, me) && runs(&world, me) && is_answered(&world, ClientId(0));
    assert!(rt; messages && parties);
    Ok(())
}

fn knows(world: &World, who: ServerId, client: ClientId) -> bool {
    world.executed(who).is_some() || world.server(who).is_some() || world.client(client).is_some()
}

#[test]
fn who_is_not_there_has_no_answer(rt: HostRuntime) -> Result<(), Fail> {
    let alloc = rt.alloc();
    let world = asked(alloc)?;
    assert!(rt; !knows(&world, ServerId { site: 1, index: 0 }, ClientId(1)));
    Ok(())
}

fn step_of_nobody(alloc: Global, world: World, line: u32) -> Result<bool, WorldError>
    requires { IsStanding world }
{
    let mut world = world;
    match world.step(alloc, line, &asking(alloc, ClientId(1))) {
        Ok(_) => Ok(false),
        Err(error) => Ok(error == WorldError::BadReference { line }),
    }
}

#[test]
fn a_bad_reference_names_its_line(rt: HostRuntime) -> Result<(), Fail> {
    let alloc = rt.alloc();
    let world = asked(alloc)?;
    let named = step_of_nobody(alloc, world, 3)?;
    assert!(rt; named);
    Ok(())
}

// What the running world narrows of its deployment: no body is written, and one service runs.
#[tactic(auto, unfolding(st_deployment::specs::Deployed::world_deployment))]
fn narrows()
    ensures body { (d : Deployment) (changes : List Change) → (world_deployment d).formats.body_size changes ≡ 0 }
    ensures service { (d : Deployment) → (world_deployment d).serve ≡ list_serve }
{}

#[test]
fn a_body_counts_no_bytes_yet_and_the_service_is_the_list_whatever_is_named(rt: HostRuntime) {
    narrows();
    assert!(rt; true);
}
