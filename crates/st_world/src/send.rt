ghost use Rattle.std.specs.Prelude.{◌≡◌, ◌≤◌, ℕ, [], ◌∷◌, length, IfOk, OnOk, IsOkUnless};
ghost use Rattle.std.specs.List.{All};
ghost use Rattle.st_words.specs.declared.deployment.Deployment.{Deployment};
ghost use Rattle.st_words.specs.Ranges.{KeepsValue, KeepsStatement};
ghost use Rattle.st_protocol.specs.Words.{Bytes, server_at, a_prepare};
ghost use Rattle.st_protocol.specs.World as model;
ghost use Rattle.st_protocol.specs.World.{dests_of, hands, hands_one, hands_out, notes_seal, sends_to};
ghost use Rattle.st_ranges.specs.Ranges.{OutputInRange};
ghost use Rattle.st_config.specs.Taken.{IsTaken};
ghost use Rattle.st_deployment.specs.Deployed.{world_deployment};
ghost use Rattle.st_world.specs.declared.error.StepError.TheVariants as steps;
ghost use Rattle.st_world.specs.Standing.{IsWorld, IsStanding, LedTo};

use crate::error::StepError;
use crate::world::World;
use st_fields::{Bytes, Copied};
use st_message::{Message, Output, Outputs, Scope};
use st_schedule::{Dest, MOST_MESSAGES, MOST_SENT};
use st_wire::encode;
use st_words::{LocalView, Number, ServerId, SiteId, Statement, Value, View, Who};
use std::alloc::Global;

impl World {
    /// Sends bytes: they get the next number, which is answered, and wait for their destination.
    pub(crate) fn send(&mut self, bytes: Bytes, to: Scope) -> Result<u32, StepError>
        requires { IsStanding self.old }
        ensures sent { (d : Deployment) (m : model.World Bytes) → IsWorld self.old d m → LedTo result self.new d (sends_to (world_deployment d) m bytes (dests_of (world_deployment d) to)) }
        ensures number { IfOk result (λ number. number ≡ length self.old.sent) }
    {
        let number = self.sent.len();
        if number >= MOST_MESSAGES as usize {
            return Err(StepError::TooMany {
                count: MOST_MESSAGES + 1,
            });
        }
        let size = self.size + bytes.as_slice().len() as u64;
        if size > MOST_SENT {
            return Err(StepError::TooMuch { bytes: size });
        }
        self.sent.push(bytes)?;
        self.waiting.push(number as u32, dest_of(to))?;
        self.size = size;
        Ok(number as u32)
    }

    // Notes that the server made a seal with this leaf over a statement.
    fn note(&mut self, alloc: Global, leaf: u32, statement: &Statement) -> Result<(), StepError>
        requires { KeepsStatement statement.now }
        ensures noted { OnOk result ((d : Deployment) (m : model.World Bytes) → IsWorld self.old d m → IsWorld self.new d (hands m (server_at 0 0) leaf statement.now)) }
        ensures memory { IsOkUnless result steps.OutOfMemory }
    {
        let me = ServerId { site: 0, index: 0 };
        self.made.hand(alloc, Who::Server(me), leaf, statement)?;
        Ok(())
    }

    // The same over a Prepare.
    fn note_prepare(
        &mut self,
        alloc: Global,
        leaf: u32,
        view: View,
        local: LocalView,
        number: Number,
        value: &Value,
    ) -> Result<(), StepError>
        requires number { 1 ≤ number.0 }
        requires value { KeepsValue value.now }
        ensures noted { OnOk result ((d : Deployment) (m : model.World Bytes) → IsWorld self.old d m → IsWorld self.new d (hands m (server_at 0 0) leaf (a_prepare 0 view.0 local.0 number.0 value.now))) }
        ensures memory { IsOkUnless result steps.OutOfMemory }
    {
        let statement = Statement::Prepare {
            site: SiteId(0),
            view,
            local,
            number,
            value: value.copy(alloc)?,
        };
        self.note(alloc, leaf, &statement)
    }

    // Notes the server's own seal in a message, if it has one.
    fn note_seal(&mut self, alloc: Global, output: &Output) -> Result<(), StepError>
        requires { OutputInRange output.now }
        ensures noted { OnOk result ((d : Deployment) (m : model.World Bytes) → IsWorld self.old d m → IsWorld self.new d (notes_seal (world_deployment d) 0 0 m output.now)) }
        ensures memory { IsOkUnless result steps.OutOfMemory }
    {
        let Some(leaf) = output.leaf else {
            return Ok(());
        };
        match &output.message {
            Message::Assign {
                view,
                local,
                number,
                value,
                ..
            } => self.note_prepare(alloc, leaf, *view, *local, *number, value),
            Message::Share { statement, .. } => self.note(alloc, leaf, statement),
            Message::Reply { statement, .. } => self.note(alloc, leaf, statement),
            Message::Report { report } => self.note(alloc, leaf, &report.statement),
            _ => Ok(()),
        }
    }

    // Hands out one message of the server's.
    fn hand_one(&mut self, alloc: Global, output: &Output) -> Result<(), StepError>
        requires stands { IsStanding self.old }
        requires inside { OutputInRange output.now }
        ensures { (d : Deployment) (m : model.World Bytes) → IsWorld self.old d m → LedTo result self.new d (hands_one (world_deployment d) 0 0 m output.now) }
    {
        self.note_seal(alloc, output)?;
        let Ok(bytes) = encode(alloc, self.deployment.id, &output.message) else {
            return Err(StepError::OutOfMemory);
        };
        match self.send(bytes, output.to) {
            Ok(_) => Ok(()),
            Err(error) => Err(error),
        }
    }

    /// Hands out a server's messages, in order.
    pub(crate) fn hand_out(&mut self, alloc: Global, outputs: &Outputs) -> Result<(), StepError>
        requires stands { IsStanding self.old }
        requires inside { All OutputInRange outputs.now }
        ensures { (d : Deployment) (m : model.World Bytes) → IsWorld self.old d m → LedTo result self.new d (hands_out (world_deployment d) 0 0 m outputs.now) }
    {
        for output in outputs.as_slice() {
            match self.hand_one(alloc, output) {
                Ok(()) => {}
                Err(error) => return Err(error),
            }
        }
        Ok(())
    }
}

// The destination of a scope: all servers, and those of a site, are one.
fn dest_of(to: Scope) -> Dest
    ensures { (d : Deployment) → IsTaken d → dests_of (world_deployment d) to ≡ result ∷ [] }
{
    match to {
        Scope::All => Dest::Server(ServerId { site: 0, index: 0 }),
        Scope::Site(site) => Dest::Server(ServerId {
            site: site.0,
            index: 0,
        }),
        Scope::One(server) => Dest::Server(server),
        Scope::Client(client) => Dest::Client(client),
    }
}
