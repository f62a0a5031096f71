ghost use Rattle.std.specs.Prelude.{◌≡◌, ◌≢◌, ℕ, ◌+◌, ◌≤◌, ◌<◌, ◌-◌, ◌^◌, IfOk, OnOk};
ghost use Rattle.st_words.specs.declared.deployment.Deployment.{Deployment};
ghost use Rattle.st_protocol.specs.Words.{Bytes};
ghost use Rattle.st_protocol.specs.World as model;
ghost use Rattle.st_protocol.specs.Schedule.{Flowing, flowed, flows, flows_first, did_by, ignored_by};

use crate::error::StepError;
use crate::world::World;
use st_message::Outcome;
use st_schedule::{Done, MOST_FLOW};
use std::alloc::Global;

/// What a flow came to so far.
#[derive(Clone, Copy, Debug, PartialEq, Eq)]
pub struct Flow {
    /// How many pairs were delivered.
    pub pairs: u32,
    /// Of those events, how many did something.
    pub did: u32,
    /// And how many were ignored.
    pub ignored: u32,
    ghost some_did: { did ≤ pairs },
    ghost some_ignored: { ignored ≤ pairs },
}

impl World {
    ghost use Rattle.st_deployment.specs.Deployed.{world_deployment};
    ghost use Rattle.st_world.specs.Standing.{IsWorld, IsStanding, CameTo};
    ghost use Rattle.st_world.specs.Flows.{FlowedTo, IsFlowing, begun};

    /// Delivers the oldest undelivered pair, so many times at most.
    pub(crate) fn flow(&mut self, alloc: Global, pairs: u32) -> Result<Done, StepError>
        requires stands { IsStanding self.old }
        requires few { pairs ≤ MOST_FLOW }
        ensures { (d : Deployment) (m : model.World Bytes) → IsWorld self.old d m → CameTo result self.new d (flowed (world_deployment d) (flows (world_deployment d) pairs (begun m))) }
    {
        let mut flow = nothing_yet();
        for turn in 0..pairs {
            match self.flow_one(alloc, flow) {
                Ok(more) => flow = more,
                Err(error) => return Err(error),
            }
        }
        Ok(Done::Flowed {
            pairs: flow.pairs,
            did: flow.did,
            ignored: flow.ignored,
        })
    }

    // Delivers the oldest undelivered pair, if there is one.
    fn flow_one(&mut self, alloc: Global, flow: Flow) -> Result<Flow, StepError>
        requires stands { IsStanding self.old }
        requires few { flow.pairs < MOST_FLOW }
        ensures flowed { (d : Deployment) (x : Flowing Bytes) → IsFlowing self.old flow d x → FlowedTo result self.new d (flows_first (world_deployment d) x x.world.waiting) }
        ensures few { IfOk result (λ more. more.pairs ≤ flow.pairs + 1) }
        ensures stands { OnOk result (IsStanding self.new) }
    {
        let Some(pair) = self.waiting.pop() else {
            return Ok(flow);
        };
        match self.deliver(alloc, pair.to, pair.message) {
            Ok(done) => Ok(counted(flow, &done)),
            Err(error) => Err(error),
        }
    }
}

// Nothing was delivered yet.
fn nothing_yet() -> Flow
    ensures pairs { result.pairs ≡ 0 }
    ensures did { result.did ≡ 0 }
    ensures ignored { result.ignored ≡ 0 }
{
    Flow {
        pairs: 0,
        did: 0,
        ignored: 0,
    }
}

// One delivery more.
fn counted(flow: Flow, done: &Done) -> Flow
    requires { flow.pairs < 2 ^ 32 - 1 }
    ensures pairs { result.pairs ≡ flow.pairs + 1 }
    ensures did { result.did ≡ flow.did + did_by done.now }
    ensures ignored { result.ignored ≡ flow.ignored + ignored_by done.now }
{
    let (did, ignored) = match done {
        Done::Outcome(Outcome::Did) => (1, 0),
        Done::Outcome(Outcome::Ignored(_)) => (0, 1),
        _ => (0, 0),
    };
    Flow {
        pairs: flow.pairs + 1,
        did: flow.did + did,
        ignored: flow.ignored + ignored,
    }
}
