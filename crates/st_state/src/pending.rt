ghost use Rattle.std.specs.Prelude.{◌≡◌, ℕ, false, nat_le, None, IfOk, OnOk, OnErr, IsOkUnless};
ghost use Rattle.std.specs.Option.{option_copied};
ghost use Rattle.st_fields.specs.declared.error.WordsError.TheVariants as words;
ghost use Rattle.st_protocol.specs.Keeping.{given};
ghost use Rattle.st_protocol.specs.Growth.{pending_takes, pending_cuts};
ghost use Rattle.st_state.specs.ClientsView.{pending_of, heard_update};

use st_fields::{Bytes, Copied, Shared, WordsError};
use st_message::Pended;
use st_tables::Table;
use st_words::{ClientId, Update};
use std::alloc::Global;

/// Per client the pending update of the greatest time, with its seal. One whose time isn't above its
/// client's last is as good as gone.
#[derive(Drop)]
pub struct Pending {
    /// How many clients the deployment has.
    pub clients: u8,
    pub updates: Table<Pended>,
}

#[tactic(auto, unfolding(crate::specs::ClientsView::pending_of))]
impl Pending {
    /// No pending update.
    pub fn new(alloc: Global, clients: u8) -> Result<Pending, WordsError>
        ensures empty { IfOk result (λ pending. (last : ℕ → ℕ) → pending_of last pending ≡ (λ c. None)) }
        ensures clients { IfOk result (λ pending. pending.clients ≡ clients) }
        ensures memory { IsOkUnless result words.OutOfMemory }
    {
        let updates = Table::new(alloc, 0)?;
        Ok(Pending { clients, updates })
    }

    /// The client's pending update, where its last time is `last`.
    pub fn get(&self, client: ClientId, last: u32) -> Option<&Pended>
        ensures { (lasts : ℕ → ℕ) → lasts client.0 ≡ last → option_copied result ≡ pending_of lasts self.now client.0 }
    {
        match self.updates.get(client.0 as usize) {
            Some(pended) if last < pended.update.time => Some(pended),
            _ => None,
        }
    }

    /// Keeps a client's update whose last time is `last`: of two that of the greater time stays, of equals
    /// the first, and one whose time isn't above the last is dropped. Where memory is refused each
    /// client's update is as before.
    pub fn keep(
        &mut self,
        alloc: Global,
        last: u32,
        update: &Update,
        seal: &Bytes,
    ) -> Result<(), WordsError>
        ensures ok { OnOk result ((lasts : ℕ → ℕ) → lasts update.now.client.0 ≡ last → pending_of lasts self.new ≡ pending_cuts lasts (pending_takes (heard_update update.now seal.now) (pending_of lasts self.old))) }
        ensures err { OnErr result ((lasts : ℕ → ℕ) (c : ℕ) → pending_of lasts self.new c ≡ pending_of lasts self.old c) }
        ensures clients { self.new.clients ≡ self.old.clients }
        ensures memory { IsOkUnless result words.OutOfMemory }
    {
        if update.time <= last || self.has_later(update, last) {
            return Ok(());
        }
        let pended = share_pended(alloc, update, seal)?;
        self.updates.put(update.client.0 as usize, Some(pended))?;
        Ok(())
    }

    // Whether an update of the client is pending whose time is at least as great.
    fn has_later(&self, update: &Update, last: u32) -> bool
        ensures { (lasts : ℕ → ℕ) → lasts update.now.client.0 ≡ last → result ≡ given (pending_of lasts self.now update.now.client.0) false (λ k. nat_le update.now.time k.update.time) }
    {
        match self.get(update.client, last) {
            Some(pended) => update.time <= pended.update.time,
            None => false,
        }
    }

    /// An equal value.
    pub fn copy(&self, alloc: Global) -> Result<Pending, WordsError>
        ensures equal { IfOk result (λ copy. copy ≡ self.now) }
        ensures memory { IsOkUnless result words.OutOfMemory }
    {
        let updates = self.updates.copy(alloc)?;
        Ok(Pending {
            clients: self.clients,
            updates,
        })
    }
}

fn share_pended(alloc: Global, update: &Update, seal: &Bytes) -> Result<Shared<Pended>, WordsError>
    ensures equal { IfOk result (λ pended. pended ≡ record { update = update.now; seal = seal.now }) }
    ensures memory { IsOkUnless result words.OutOfMemory }
{
    let update = update.copy(alloc)?;
    let seal = seal.copy(alloc)?;
    let pended = Shared::new(alloc, Pended { update, seal })?;
    Ok(pended)
}
