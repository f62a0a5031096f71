ghost use Rattle.std.specs.Prelude.{◌≡◌, ℕ, cond, nat_eq, IfOk, OnOk, OnErr, IsOkUnless};
ghost use Rattle.st_fields.specs.declared.error.WordsError.TheVariants as words;
ghost use Rattle.st_state.specs.ClientsView.{last_of, place_of};

use st_fields::{Copied, Shared, WordsError};
use st_tables::Table;
use st_words::ClientId;
use std::alloc::Global;

/// A client's last update that ran.
#[derive(Clone, Copy, Debug, PartialEq, Eq)]
pub struct LastRun {
    /// Its time.
    pub last: u32,
    /// The number at which it ran.
    pub place: u32,
}

/// The client table: per client its last update that ran.
#[derive(Drop)]
pub struct Clients {
    pub rows: Table<LastRun>,
}

#[tactic(auto, unfolding(crate::specs::ClientsView::last_of, crate::specs::ClientsView::place_of))]
impl Clients {
    /// The table in which no client has run anything.
    pub fn new(alloc: Global) -> Result<Clients, WordsError>
        ensures last { IfOk result (λ clients. (c : ℕ) → last_of clients c ≡ 0) }
        ensures place { IfOk result (λ clients. (c : ℕ) → place_of clients c ≡ 0) }
        ensures memory { IsOkUnless result words.OutOfMemory }
    {
        let rows = Table::new(alloc, 0)?;
        Ok(Clients { rows })
    }

    /// The client's last time, 0 at first.
    pub fn last(&self, client: ClientId) -> u32
        ensures { result ≡ last_of self.now client.0 }
    {
        match self.rows.get(client.0 as usize) {
            Some(row) => row.last,
            None => 0,
        }
    }

    /// The number at which the client's last update ran, 0 at first.
    pub fn place(&self, client: ClientId) -> u32
        ensures { result ≡ place_of self.now client.0 }
    {
        match self.rows.get(client.0 as usize) {
            Some(row) => row.place,
            None => 0,
        }
    }

    /// Notes that the client's update of this time ran at this number. Where memory is refused each
    /// client's row is as before.
    pub fn ran(
        &mut self,
        alloc: Global,
        client: ClientId,
        time: u32,
        place: u32,
    ) -> Result<(), WordsError>
        ensures last { OnOk result ((c : ℕ) → last_of self.new c ≡ cond (nat_eq client.0 c) time (last_of self.old c)) }
        ensures place { OnOk result ((c : ℕ) → place_of self.new c ≡ cond (nat_eq client.0 c) place (place_of self.old c)) }
        ensures last_err { OnErr result ((c : ℕ) → last_of self.new c ≡ last_of self.old c) }
        ensures place_err { OnErr result ((c : ℕ) → place_of self.new c ≡ place_of self.old c) }
        ensures memory { IsOkUnless result words.OutOfMemory }
    {
        let row = Shared::new(alloc, LastRun { last: time, place })?;
        self.rows.put(client.0 as usize, Some(row))?;
        Ok(())
    }

    /// An equal table.
    pub fn copy(&self, alloc: Global) -> Result<Clients, WordsError>
        ensures equal { IfOk result (λ copy. copy ≡ self.now) }
        ensures memory { IsOkUnless result words.OutOfMemory }
    {
        let rows = self.rows.copy(alloc)?;
        Ok(Clients { rows })
    }
}
