ghost use Rattle.std.specs.Prelude.{◌≡◌, ◌≢◌, Err, IfOk, IsOkUnless};
ghost use Rattle.std.specs.List.{All};
ghost use Rattle.st_words.specs.declared.deployment.Deployment.{Deployment};
ghost use Rattle.st_protocol.specs.Words.{Bytes};
ghost use Rattle.st_protocol.specs.Questions.{questions};
ghost use Rattle.st_protocol.specs.Duty.{Deliver, Clean};
ghost use Rattle.st_protocol.specs.World as model;
ghost use Rattle.st_protocol.specs.World.{pen_at, reads, seat_of, serves};
ghost use Rattle.st_ranges.specs.Ranges.{MessageInRange, OutputInRange};
ghost use Rattle.st_server.specs.Serving.{plan_by_message};
ghost use Rattle.st_deployment.specs.Deployed.{world_deployment};
ghost use Rattle.st_world.specs.declared.error.StepError.TheVariants as steps;
ghost use Rattle.st_world.specs.Standing.{IsWorld, IsStanding, CameTo};
ghost use Rattle.st_world.specs.Serving.{IsSettled};

use crate::error::StepError;
use crate::world::World;
use st_message::{Message, Plan};
use st_schedule::Done;
use st_server::Planned;
use std::alloc::Global;

impl World {
    /// Delivers to the server what it read of bytes: it does its duty, and its messages are handed out.
    pub(crate) fn serve(&mut self, alloc: Global, message: &Message) -> Result<Done, StepError>
        requires stands { IsStanding self.old }
        requires inside { MessageInRange message.now }
        ensures { (d : Deployment) (m : model.World Bytes) (wire : Bytes) → IsWorld self.old d m → reads (world_deployment d) wire ≡ Clean message.now → CameTo result self.new d (serves (world_deployment d) m 0 0 (Deliver wire)) }
    {
        let plan = self.act(alloc, message)?;
        match self.hand_out(alloc, &plan.outputs) {
            Ok(()) => Ok(Done::Outcome(plan.outcome)),
            Err(error) => Err(error),
        }
    }

    // The server's plan, which it settles; its messages aren't handed out yet.
    fn act(&mut self, alloc: Global, message: &Message) -> Result<Plan, StepError>
        requires stands { IsStanding self.old }
        requires inside { MessageInRange message.now }
        ensures plan { IfOk result (λ plan. (d : Deployment) (m : model.World Bytes) → IsWorld self.old d m → plan ≡ plan_by_message (seat_of (world_deployment d) 0 0) (pen_at (world_deployment d) 0 0) (questions (seat_of (world_deployment d) 0 0) (m.nodes 0 0).bodies (m.nodes 0 0).heard) message.now) }
        ensures settled { IfOk result (λ plan. (d : Deployment) (m : model.World Bytes) → IsWorld self.old d m → IsSettled self.new d m plan) }
        ensures range { IfOk result (λ plan. All OutputInRange plan.outputs) }
        ensures memory { IsOkUnless result steps.OutOfMemory }
    {
        let Planned { plan, next } = self
            .server
            .plan(alloc, &mut self.sealer, self.deployment.id, message)?;
        self.server.settle(alloc, &plan.changes, next)?;
        Ok(plan)
    }
}
