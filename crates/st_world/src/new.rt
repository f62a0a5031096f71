ghost use Rattle.std.specs.Prelude.{◌≡◌, [], IsTrue, IfOk, IsOkUnless};
ghost use Rattle.st_seal.specs.Scheme.{scheme_of, is_party};
ghost use Rattle.st_hss_seal.specs.Sealers.{scheme_in, pen_of};
ghost use Rattle.st_hss_seal.specs.Sealing.{pen_in};
ghost use Rattle.st_state.specs.HereView as view;
ghost use Rattle.st_live.specs.Service.{list_serve};
ghost use Rattle.st_server.specs.Serving.{Stands, seat_by};
ghost use Rattle.st_protocol.specs.Words.{a_server, server_at};
ghost use Rattle.st_protocol.specs.World.{empty, capacity_of};
ghost use Rattle.st_config.specs.Taken.{IsTaken};
ghost use Rattle.st_world.specs.declared.error.WorldError.TheVariants as errors;
ghost use Rattle.st_world.specs.Standing.{IsWorld};
ghost use Rattle.st_world.specs.First.{first_here};

use crate::error::WorldError;
use crate::world::World;
use st_fields::Seq;
use st_hss_seal::{DeploymentSeals, PartySealer};
use st_made::Made;
use st_message::Here;
use st_seal::Sealer;
use st_sealers::ClientSealers;
use st_server::Server;
use st_tables::Table;
use st_waiting::Waiting;
use st_words::{Deployment, LocalView, ServerId, View, Who};
use std::alloc::Global;

impl World {
    /// A world of a deployment that is taken today, before its first event.
    pub fn new(alloc: Global, d: &Deployment) -> Result<World, WorldError>
        requires { IsTaken d.now }
        ensures stands { IfOk result (λ world. IsWorld world d.now empty) }
        ensures memory { IsOkUnless result errors.OutOfMemory }
    {
        let customers = Table::new(alloc, 0)?;
        let waiting = Waiting::new(alloc)?;
        let seals = seals_of(alloc, d)?;
        let sealer = sealer_of(alloc, &seals)?;
        let sealers = ClientSealers::new(alloc, d.clients)?;
        let capacity = sealer.capacity();
        let server = server_of(alloc, d, capacity)?;
        let deployment = copy_of(alloc, d);
        let sent = Seq::new(alloc);
        let made = Made::new(alloc);
        Ok(World {
            deployment,
            seals,
            sealer,
            sealers,
            server,
            customers,
            sent,
            size: 0,
            waiting,
            made,
        })
    }
}

// The seals of a deployment's parties.
fn seals_of(alloc: Global, d: &Deployment) -> Result<DeploymentSeals, WorldError>
    requires { IsTaken d.now }
    ensures scheme { IfOk result (λ seals. scheme_in seals ≡ scheme_of d.now) }
    ensures memory { IsOkUnless result errors.OutOfMemory }
{
    match DeploymentSeals::new(alloc, d) {
        Ok(seals) => Ok(seals),
        Err(_) => Err(WorldError::OutOfMemory),
    }
}

// Those of the server.
fn sealer_of(alloc: Global, seals: &DeploymentSeals) -> Result<PartySealer, WorldError>
    requires { IsTrue (is_party (scheme_in seals.now) (server_at 0 0)) }
    ensures pen { IfOk result (λ sealer. pen_of sealer ≡ pen_in (scheme_in seals.now) (server_at 0 0)) }
    ensures memory { IsOkUnless result errors.OutOfMemory }
{
    let me = ServerId { site: 0, index: 0 };
    match seals.sealer(alloc, Who::Server(me)) {
        Ok(sealer) => Ok(sealer),
        Err(_) => Err(WorldError::OutOfMemory),
    }
}

// The server, which has so many seals.
fn server_of(alloc: Global, d: &Deployment, capacity: u32) -> Result<Server, WorldError>
    requires taken { IsTaken d.now }
    requires capacity { capacity ≡ capacity_of d.now.seals }
    ensures stands { IfOk result (λ server. Stands server [] []) }
    ensures seat { IfOk result (λ server. seat_by server ≡ view.seat_of d.now.clients list_serve (first_here d.now (a_server 0 0) capacity)) }
    ensures memory { IsOkUnless result errors.OutOfMemory }
{
    let here = here_at_first(d, capacity);
    let server = Server::new(alloc, here, d.clients)?;
    Ok(server)
}

// Where a server stands at first.
fn here_at_first(d: &Deployment, capacity: u32) -> Here
    ensures { result ≡ first_here d.now (a_server 0 0) capacity }
{
    Here {
        id: d.id,
        me: ServerId { site: 0, index: 0 },
        sites: d.sites,
        f: d.f,
        view: View(0),
        local: LocalView(0),
        executed: 0,
        leaf: 0,
        capacity,
    }
}

// The deployment again: none of its servers is faulty.
fn copy_of(alloc: Global, d: &Deployment) -> Deployment
    requires { IsTaken d.now }
    ensures { result ≡ d.now }
{
    Deployment {
        id: d.id,
        sites: d.sites,
        f: d.f,
        clients: d.clients,
        service: d.service,
        seals: d.seals,
        seed: d.seed,
        faulty: Seq::new(alloc),
        port: d.port,
    }
}
