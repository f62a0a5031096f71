ghost use Rattle.std.specs.Prelude.{◌≡◌, ℕ, ◌<◌, ◌≤◌, ◌^◌, length, IfOk, OnOk, IsOkUnless};
ghost use Rattle.st_words.specs.declared.deployment.Deployment.{Deployment};
ghost use Rattle.st_words.specs.declared.value.Update.{Update};
ghost use Rattle.st_words.specs.declared.statement.Statement.TheVariants.{ClientUpdate};
ghost use Rattle.st_words.specs.Ranges.{KeepsUpdate};
ghost use Rattle.st_message.specs.declared.message.Message.TheVariants as messages;
ghost use Rattle.st_schedule.specs.declared.limits.TheConstants.{MOST_OPERATION};
ghost use Rattle.st_wire.specs.Ranges.{KeepsSeal};
ghost use Rattle.st_wire.specs.Spelling.{message_spelling};
ghost use Rattle.st_protocol.specs.Words.{Bytes, client_at};
ghost use Rattle.st_protocol.specs.World as model;
ghost use Rattle.st_protocol.specs.World.{hands};
ghost use Rattle.st_protocol.specs.Schedule.{submits};
ghost use Rattle.st_hss_seal.specs.Sealing.{capacity_by};
ghost use Rattle.st_deployment.specs.Deployed.{statement_seal, world_deployment};
ghost use Rattle.st_world.specs.declared.error.StepError.TheVariants as steps;
ghost use Rattle.st_world.specs.Standing.{IsSet, IsWorld, IsStanding, StaysWorld, CameTo};
ghost use Rattle.st_world.specs.Submitting.{next_update};

use crate::error::StepError;
use crate::world::World;
use st_fields::{Bytes, Copied, Shared};
use st_message::{Message, Scope};
use st_schedule::Done;
use st_seal::Sealer;
use st_wire::encode;
use st_words::{ClientId, Statement, Update, Who};
use std::alloc::Global;

impl World {
    /// A client seals its next update with this operation, and it is sent to all servers.
    pub(crate) fn submit(
        &mut self,
        alloc: Global,
        client: ClientId,
        op: &Bytes,
    ) -> Result<Done, StepError>
        requires stands { IsStanding self.old }
        requires client { client.0 < self.old.deployment.clients }
        requires op { length op.now ≤ MOST_OPERATION }
        ensures { (d : Deployment) (m : model.World Bytes) → IsWorld self.old d m → CameTo result self.new d (submits (world_deployment d) m client.0 op.now) }
    {
        let mut customer = self.customer(alloc, client)?;
        let used = customer.time();
        let capacity = self.sealer.capacity();
        if used >= capacity {
            return Ok(Done::SealsSpent(used));
        }
        customer.submit();
        self.put_customer(alloc, client, customer)?;
        let update = next_update(alloc, client, used, op)?;
        let bytes = self.sealed_update(alloc, client, used, update)?;
        match self.send(bytes, Scope::All) {
            Ok(number) => Ok(Done::Sent(number)),
            Err(error) => Err(error),
        }
    }

    // A client seals its update with this leaf, which is noted; the bytes of the message.
    fn sealed_update(
        &mut self,
        alloc: Global,
        client: ClientId,
        leaf: u32,
        update: Update,
    ) -> Result<Bytes, StepError>
        requires stands { IsStanding self.old }
        requires client { client.0 < self.old.deployment.clients }
        requires leaf { leaf < capacity_by self.old.deployment.seals }
        requires update { KeepsUpdate update }
        ensures noted { OnOk result ((d : Deployment) (m : model.World Bytes) → IsWorld self.old d m → IsWorld self.new d (hands m (client_at client.0) leaf (ClientUpdate update))) }
        ensures bytes { IfOk result (λ bytes. (d : Deployment) → IsSet self.old d → bytes ≡ message_spelling d.id (messages.Update update (statement_seal d (client_at client.0) leaf (ClientUpdate update)))) }
        ensures memory { IsOkUnless result steps.OutOfMemory }
    {
        let id = self.deployment.id;
        let statement = Statement::ClientUpdate { update };
        let seal = self.client_seal(alloc, client, leaf, &statement)?;
        self.made
            .hand(alloc, Who::Client(client), leaf, &statement)?;
        let message = Shared::new(alloc, message_of(statement, seal))?;
        match encode(alloc, id, message.get()) {
            Ok(bytes) => Ok(bytes),
            Err(_) => Err(StepError::OutOfMemory),
        }
    }

    // A client's seal over a statement.
    fn client_seal(
        &mut self,
        alloc: Global,
        client: ClientId,
        leaf: u32,
        statement: &Statement,
    ) -> Result<Bytes, StepError>
        requires stands { IsStanding self.old }
        requires client { client.0 < self.old.deployment.clients }
        requires leaf { leaf < capacity_by self.old.deployment.seals }
        ensures same { OnOk result (StaysWorld self.old self.new) }
        ensures seal { IfOk result (λ seal. (d : Deployment) → IsSet self.old d → seal ≡ statement_seal d (client_at client.0) leaf statement.now) }
        ensures length { IfOk result (λ seal. KeepsSeal seal) }
        ensures memory { IsOkUnless result steps.OutOfMemory }
    {
        let id = self.deployment.id;
        let seal = self
            .sealers
            .seal(alloc, &self.seals, id, client, leaf, statement)?;
        Ok(seal)
    }
}

// A client's update of the time after `used`.
fn next_update(alloc: Global, client: ClientId, used: u32, op: &Bytes) -> Result<Update, StepError>
    requires { used < 2 ^ 20 }
    ensures update { IfOk result (λ update. update ≡ next_update client.0 used op.now) }
    ensures memory { IsOkUnless result steps.OutOfMemory }
{
    let op = op.copy(alloc)?;
    Ok(Update {
        client,
        time: used + 1,
        op,
    })
}

// A client's update, of which this is the statement, with its seal.
fn message_of(statement: Statement, seal: Bytes) -> Message
    requires { (update : Update) × (statement ≡ ClientUpdate update) }
    ensures { (update : Update) → statement ≡ ClientUpdate update → result ≡ messages.Update update seal }
{
    match statement {
        Statement::ClientUpdate { update } => Message::Update { update, seal },
        _ => unreachable!(),
    }
}
