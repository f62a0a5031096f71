ghost use Rattle.std.specs.Prelude.{IfOk};
ghost use Rattle.st_words.specs.Ranges.{KeepsStatement};
ghost use Rattle.st_hss_seal.specs.Sealers.{scheme_in};
ghost use Rattle.st_sealers.specs.Keeping.{KeepsSealers};

use super::*;
use st_fields::Seq;
use st_hss_seal::{DeploymentSeals, is_choice};
use st_seal::{Check, Sealer};
use st_words::{
    ClientId, Deployment, SealKind, ServiceKind, Statement, Update, Who, statement_bytes,
};
use std::alloc::Global;
use std::process::Abort;
use std::test::*;

// One site of one server, with two clients whose keys have one tree of height 5.
fn deployment(alloc: Global) -> Deployment {
    Deployment {
        id: 7,
        sites: 1,
        f: 0,
        clients: 2,
        service: ServiceKind::List,
        seals: SealKind::Hss {
            height: 5,
            width: 4,
            levels: 1,
        },
        seed: [0; 32],
        faulty: Seq::new(alloc),
        port: 47_000,
    }
}

fn statement(alloc: Global) -> Result<Statement, Fail>
    ensures { IfOk result KeepsStatement }
{
    let op = Seq::from_slice(alloc, b"hi")?;
    let update = Update {
        client: ClientId(1),
        time: 1,
        op,
    };
    Ok(Statement::ClientUpdate { update })
}

// The second client seals with this leaf, and its seal checks.
fn seals_with(
    alloc: Global,
    rt: &impl Abort,
    sealers: &mut ClientSealers,
    seals: &DeploymentSeals,
    leaf: u32,
) -> Result<(), Fail>
    requires { KeepsSealers (scheme_in seals.now) sealers.old }
    ensures { KeepsSealers (scheme_in seals.now) sealers.new }
{
    let client = ClientId(1);
    assert!(rt; seals.has(Who::Client(client)));
    let sealer = seals.sealer(alloc, Who::Client(client))?;
    assert!(rt; leaf < sealer.capacity());
    let statement = statement(alloc)?;
    let seal = sealers.seal(alloc, seals, 7, client, leaf, &statement)?;
    let bytes = statement_bytes(alloc, 7, &statement)?;
    assert!(rt; seals.check(Who::Client(client), bytes.as_slice(), seal.as_slice()));
    Ok(())
}

#[test]
fn a_client_seals_with_one_leaf_after_another(rt: HostRuntime) -> Result<(), Fail> {
    let alloc = rt.alloc();
    let d = deployment(alloc);
    assert!(rt; is_choice(d.seals));
    let seals = DeploymentSeals::new(alloc, &d)?;
    let mut sealers = ClientSealers::new(alloc, d.clients)?;
    seals_with(alloc, &rt, &mut sealers, &seals, 0)?;
    seals_with(alloc, &rt, &mut sealers, &seals, 1)?;
    seals_with(alloc, &rt, &mut sealers, &seals, 31)?;
    Ok(())
}
