ghost use Rattle.std.specs.Prelude.{◌≡◌, ℕ, ◌+◌, ◌-◌, ◌^◌, ◌<◌, ◌≤◌, IsTrue, IfOk, OnOk, OnErr, IsOkUnless};
ghost use Rattle.std.specs.Option.{option_copied};
ghost use Rattle.st_fields.specs.declared.error.WordsError.TheVariants as words;
ghost use Rattle.st_message.specs.declared.change.Change.TheVariants as changes;
ghost use Rattle.st_words.specs.declared.ids.Number.{Number};
ghost use Rattle.st_words.specs.declared.ids.SiteId.{SiteId};
ghost use Rattle.st_words.specs.declared.ids.View.{View};
ghost use Rattle.st_words.specs.declared.ids.LocalView.{LocalView};
ghost use Rattle.st_words.specs.declared.value.Value.{Value};
ghost use Rattle.st_words.specs.declared.statement.Statement.TheVariants as statements;
ghost use Rattle.st_message.specs.declared.message.Proof.{Proof};
ghost use Rattle.st_protocol.specs.State.{Here as At, AtPrepare, AtProposal, AtAccept};
ghost use Rattle.st_protocol.specs.Growth.{here_after, slots_notes, slots_cuts, slots_takes};
ghost use Rattle.st_state.specs.HereView.{Serve, here_of};
ghost use Rattle.st_state.specs.Placed.{is_placed};
ghost use Rattle.st_state.specs.Writes.{among};
ghost use Rattle.st_state.specs.SlotsView.{slots_of, no_slots, heard_share, backed_by};

use crate::rings::{keep_among, keep_first, keep_higher};
use st_fields::{Copied, Shared, WordsError};
use st_message::{Backed, Change, Here, Sealing, Share};
use st_seal::{Quorum, Signed};
use st_tables::{Ring, Table};
use st_words::{Number, Statement};
use std::alloc::Global;

/// The slots of the window: per number, the statements that this server made at its present views, the
/// prepared and the accepted value of the highest view, and the shares of its site that it keeps.
#[derive(Drop)]
pub struct Slots {
    prepares: Ring<Sealing>,
    proposals: Ring<Sealing>,
    accepts: Ring<Sealing>,
    prepared: Ring<Backed>,
    accepted: Ring<Backed>,
    prepare_shares: Ring<Table<Share>>,
    proposal_shares: Ring<Table<Share>>,
    accept_shares: Ring<Table<Share>>,
}

#[tactic(auto, unfolding(crate::specs::SlotsView::slots_of))]
impl Slots {
    /// Slots without anything.
    pub fn new(alloc: Global) -> Result<Slots, WordsError>
        ensures empty { IfOk result (λ slots. (at : At) → slots_of at slots ≡ no_slots) }
        ensures memory { IsOkUnless result words.OutOfMemory }
    {
        Ok(Slots {
            prepares: Ring::new(alloc)?,
            proposals: Ring::new(alloc)?,
            accepts: Ring::new(alloc)?,
            prepared: Ring::new(alloc)?,
            accepted: Ring::new(alloc)?,
            prepare_shares: Ring::new(alloc)?,
            proposal_shares: Ring::new(alloc)?,
            accept_shares: Ring::new(alloc)?,
        })
    }

    /// The Prepare that this server made of a number at its present views, if it made one.
    pub fn made_prepare(&self, here: &Here, number: u32) -> Option<&Sealing>
        ensures { (clients : ℕ) (serve : Serve) → option_copied result ≡ (slots_of (here_of clients serve here.now) self.now).made (AtPrepare here.now.view.0 here.now.local.0 number) }
    {
        self.prepares.get(here.executed, number)
    }

    /// The Proposal that this server made of a number at its present views, if it made one.
    pub fn made_proposal(&self, here: &Here, number: u32) -> Option<&Sealing>
        ensures { (clients : ℕ) (serve : Serve) → option_copied result ≡ (slots_of (here_of clients serve here.now) self.now).made (AtProposal here.now.view.0 here.now.local.0 number) }
    {
        self.proposals.get(here.executed, number)
    }

    /// The Accept that this server made of a number at its present view, if it made one.
    pub fn made_accept(&self, here: &Here, number: u32) -> Option<&Sealing>
        ensures { (clients : ℕ) (serve : Serve) → option_copied result ≡ (slots_of (here_of clients serve here.now) self.now).made (AtAccept here.now.view.0 number) }
    {
        self.accepts.get(here.executed, number)
    }

    /// The prepared item of a number with the highest view and local view, if there is one.
    pub fn prepared(&self, here: &Here, number: u32) -> Option<&Backed>
        ensures { (clients : ℕ) (serve : Serve) → option_copied result ≡ (slots_of (here_of clients serve here.now) self.now).prepared number }
    {
        self.prepared.get(here.executed, number)
    }

    /// The accepted item of a number with the highest view and local view, if there is one.
    pub fn accepted(&self, here: &Here, number: u32) -> Option<&Backed>
        ensures { (clients : ℕ) (serve : Serve) → option_copied result ≡ (slots_of (here_of clients serve here.now) self.now).accepted number }
    {
        self.accepted.get(here.executed, number)
    }

    /// The kept shares of the present views' Prepare of a number, by index.
    pub fn prepare_shares(&self, here: &Here, number: u32) -> Option<&Table<Share>>
        ensures { (clients : ℕ) (serve : Serve) → among (option_copied result) ≡ (slots_of (here_of clients serve here.now) self.now).shares (AtPrepare here.now.view.0 here.now.local.0 number) }
    {
        self.prepare_shares.get(here.executed, number)
    }

    /// The kept shares of the present views' Proposal of a number, by index.
    pub fn proposal_shares(&self, here: &Here, number: u32) -> Option<&Table<Share>>
        ensures { (clients : ℕ) (serve : Serve) → among (option_copied result) ≡ (slots_of (here_of clients serve here.now) self.now).shares (AtProposal here.now.view.0 here.now.local.0 number) }
    {
        self.proposal_shares.get(here.executed, number)
    }

    /// The kept shares of the present view's Accept of a number, by index.
    pub fn accept_shares(&self, here: &Here, number: u32) -> Option<&Table<Share>>
        ensures { (clients : ℕ) (serve : Serve) → among (option_copied result) ≡ (slots_of (here_of clients serve here.now) self.now).shares (AtAccept here.now.view.0 number) }
    {
        self.accept_shares.get(here.executed, number)
    }

    /// Notes a Prepare of the present views that is made with this leaf; of two of a number the first stays.
    #[tactic(auto, using(crate::proofs::SlotsLaws::prepare_made), unfolding(crate::specs::SlotsView::slots_of))]
    pub fn note_prepare(
        &mut self,
        alloc: Global,
        here: &Here,
        leaf: u32,
        number: Number,
        statement: &Statement,
    ) -> Result<(), WordsError>
        requires above { here.now.executed < number.0 }
        requires below { number.0 ≤ here.now.executed + 16 }
        ensures ok { OnOk result ((clients : ℕ) (serve : Serve) (site : SiteId) (value : Value) → statement.now ≡ statements.Prepare site here.now.view here.now.local number value → let h = here_of clients serve here.now in let change = changes.Made leaf statement.now in slots_of (here_after change h) self.new ≡ slots_notes (here_after change h) change (slots_of h self.old)) }
        ensures err { OnErr result (self.new ≡ self.old) }
        ensures memory { IsOkUnless result words.OutOfMemory }
    {
        let sealing = share_sealing(alloc, leaf, statement)?;
        keep_first(&mut self.prepares, here.executed, number.0, sealing);
        Ok(())
    }

    /// Notes a Proposal of the present views that is made with this leaf; of two of a number the first stays.
    #[tactic(auto, using(crate::proofs::SlotsLaws::proposal_made), unfolding(crate::specs::SlotsView::slots_of))]
    pub fn note_proposal(
        &mut self,
        alloc: Global,
        here: &Here,
        leaf: u32,
        number: Number,
        statement: &Statement,
    ) -> Result<(), WordsError>
        requires above { here.now.executed < number.0 }
        requires below { number.0 ≤ here.now.executed + 16 }
        ensures ok { OnOk result ((clients : ℕ) (serve : Serve) (site : SiteId) (value : Value) → statement.now ≡ statements.Proposal site here.now.view here.now.local number value → let h = here_of clients serve here.now in let change = changes.Made leaf statement.now in slots_of (here_after change h) self.new ≡ slots_notes (here_after change h) change (slots_of h self.old)) }
        ensures err { OnErr result (self.new ≡ self.old) }
        ensures memory { IsOkUnless result words.OutOfMemory }
    {
        let sealing = share_sealing(alloc, leaf, statement)?;
        keep_first(&mut self.proposals, here.executed, number.0, sealing);
        Ok(())
    }

    /// Notes an Accept of the present view that is made with this leaf; of two of a number the first stays.
    #[tactic(auto, using(crate::proofs::SlotsLaws::accept_made), unfolding(crate::specs::SlotsView::slots_of))]
    pub fn note_accept(
        &mut self,
        alloc: Global,
        here: &Here,
        leaf: u32,
        number: Number,
        statement: &Statement,
    ) -> Result<(), WordsError>
        requires above { here.now.executed < number.0 }
        requires below { number.0 ≤ here.now.executed + 16 }
        ensures ok { OnOk result ((clients : ℕ) (serve : Serve) (site : SiteId) (value : Value) → statement.now ≡ statements.Accept site here.now.view number value → let h = here_of clients serve here.now in let change = changes.Made leaf statement.now in slots_of (here_after change h) self.new ≡ slots_notes (here_after change h) change (slots_of h self.old)) }
        ensures err { OnErr result (self.new ≡ self.old) }
        ensures memory { IsOkUnless result words.OutOfMemory }
    {
        let sealing = share_sealing(alloc, leaf, statement)?;
        keep_first(&mut self.accepts, here.executed, number.0, sealing);
        Ok(())
    }

    /// Keeps a server's share of a Prepare of the present views; of two of a slot the first stays, and
    /// one of an executed number is dropped.
    pub fn hear_prepare(
        &mut self,
        alloc: Global,
        here: &Here,
        number: Number,
        statement: &Statement,
        signed: &Signed,
    ) -> Result<(), WordsError>
        requires below { number.0 ≤ here.now.executed + 16 }
        ensures ok { OnOk result ((clients : ℕ) (serve : Serve) (site : SiteId) (value : Value) → statement.now ≡ statements.Prepare site here.now.view here.now.local number value → let h = here_of clients serve here.now in slots_of h self.new ≡ slots_cuts h (slots_takes (heard_share statement.now signed.now) (slots_of h self.old))) }
        ensures err { OnErr result (self.new ≡ self.old) }
        ensures memory { IsOkUnless result words.OutOfMemory }
    {
        if number.0 <= here.executed {
            return Ok(());
        }
        let share = copy_share(alloc, statement, signed)?;
        keep_among(
            alloc,
            &mut self.prepare_shares,
            here.executed,
            number.0,
            signed.index,
            share,
        )?;
        Ok(())
    }

    /// Keeps a server's share of a Proposal of the present views; of two of a slot the first stays, and
    /// one of an executed number is dropped.
    pub fn hear_proposal(
        &mut self,
        alloc: Global,
        here: &Here,
        number: Number,
        statement: &Statement,
        signed: &Signed,
    ) -> Result<(), WordsError>
        requires below { number.0 ≤ here.now.executed + 16 }
        ensures ok { OnOk result ((clients : ℕ) (serve : Serve) (site : SiteId) (value : Value) → statement.now ≡ statements.Proposal site here.now.view here.now.local number value → let h = here_of clients serve here.now in slots_of h self.new ≡ slots_cuts h (slots_takes (heard_share statement.now signed.now) (slots_of h self.old))) }
        ensures err { OnErr result (self.new ≡ self.old) }
        ensures memory { IsOkUnless result words.OutOfMemory }
    {
        if number.0 <= here.executed {
            return Ok(());
        }
        let share = copy_share(alloc, statement, signed)?;
        keep_among(
            alloc,
            &mut self.proposal_shares,
            here.executed,
            number.0,
            signed.index,
            share,
        )?;
        Ok(())
    }

    /// Keeps a server's share of a Accept of the present view; of two of a slot the first stays, and
    /// one of an executed number is dropped.
    pub fn hear_accept(
        &mut self,
        alloc: Global,
        here: &Here,
        number: Number,
        statement: &Statement,
        signed: &Signed,
    ) -> Result<(), WordsError>
        requires below { number.0 ≤ here.now.executed + 16 }
        ensures ok { OnOk result ((clients : ℕ) (serve : Serve) (site : SiteId) (value : Value) → statement.now ≡ statements.Accept site here.now.view number value → let h = here_of clients serve here.now in slots_of h self.new ≡ slots_cuts h (slots_takes (heard_share statement.now signed.now) (slots_of h self.old))) }
        ensures err { OnErr result (self.new ≡ self.old) }
        ensures memory { IsOkUnless result words.OutOfMemory }
    {
        if number.0 <= here.executed {
            return Ok(());
        }
        let share = copy_share(alloc, statement, signed)?;
        keep_among(
            alloc,
            &mut self.accept_shares,
            here.executed,
            number.0,
            signed.index,
            share,
        )?;
        Ok(())
    }

    /// Notes that a Prepare of a number was prepared, unless an item of as high a view and local view is there.
    pub fn note_prepared(
        &mut self,
        alloc: Global,
        here: &Here,
        number: Number,
        statement: &Statement,
        quorum: &Quorum,
    ) -> Result<(), WordsError>
        requires above { here.now.executed < number.0 }
        requires below { number.0 ≤ here.now.executed + 16 }
        ensures ok { OnOk result ((clients : ℕ) (serve : Serve) (site : SiteId) (view : View) (local : LocalView) (value : Value) → statement.now ≡ statements.Prepare site view local number value → let h = here_of clients serve here.now in slots_of h self.new ≡ slots_notes h (changes.Prepared statement.now quorum.now) (slots_of h self.old)) }
        ensures err { OnErr result (self.new ≡ self.old) }
        ensures memory { IsOkUnless result words.OutOfMemory }
    {
        if let Some(backed) = share_backed(alloc, statement, quorum)? {
            keep_higher(&mut self.prepared, here.executed, number.0, backed);
        }
        Ok(())
    }

    /// Notes that a Proposal of a number was accepted, unless an item of as high a view and local view is there.
    pub fn note_accepted(
        &mut self,
        alloc: Global,
        here: &Here,
        number: Number,
        statement: &Statement,
        quorum: &Quorum,
    ) -> Result<(), WordsError>
        requires above { here.now.executed < number.0 }
        requires below { number.0 ≤ here.now.executed + 16 }
        ensures ok { OnOk result ((clients : ℕ) (serve : Serve) (site : SiteId) (view : View) (local : LocalView) (value : Value) → statement.now ≡ statements.Proposal site view local number value → let h = here_of clients serve here.now in slots_of h self.new ≡ slots_notes h (changes.Accepted statement.now quorum.now) (slots_of h self.old)) }
        ensures err { OnErr result (self.new ≡ self.old) }
        ensures memory { IsOkUnless result words.OutOfMemory }
    {
        if let Some(backed) = share_backed(alloc, statement, quorum)? {
            keep_higher(&mut self.accepted, here.executed, number.0, backed);
        }
        Ok(())
    }

    /// Moves the window up by the number that is executed, of which all is dropped.
    pub fn move_up(&mut self, here: &Here)
        requires { here.now.executed < 2 ^ 32 - 1 }
        ensures { (clients : ℕ) (serve : Serve) (number : Number) (proof : Proof) → let h = here_of clients serve here.now in let change = changes.Executed number proof in slots_of (here_after change h) self.new ≡ slots_cuts (here_after change h) (slots_notes (here_after change h) change (slots_of h self.old)) }
    {
        self.prepares.move_up(here.executed);
        self.proposals.move_up(here.executed);
        self.accepts.move_up(here.executed);
        self.prepared.move_up(here.executed);
        self.accepted.move_up(here.executed);
        self.prepare_shares.move_up(here.executed);
        self.proposal_shares.move_up(here.executed);
        self.accept_shares.move_up(here.executed);
    }

    /// An equal value.
    pub fn copy(&self, alloc: Global) -> Result<Slots, WordsError>
        ensures equal { IfOk result (λ copy. copy ≡ self.now) }
        ensures memory { IsOkUnless result words.OutOfMemory }
    {
        Ok(Slots {
            prepares: self.prepares.copy(alloc)?,
            proposals: self.proposals.copy(alloc)?,
            accepts: self.accepts.copy(alloc)?,
            prepared: self.prepared.copy(alloc)?,
            accepted: self.accepted.copy(alloc)?,
            prepare_shares: self.prepare_shares.copy(alloc)?,
            proposal_shares: self.proposal_shares.copy(alloc)?,
            accept_shares: self.accept_shares.copy(alloc)?,
        })
    }
}

fn share_sealing(
    alloc: Global,
    leaf: u32,
    statement: &Statement,
) -> Result<Shared<Sealing>, WordsError>
    ensures equal { IfOk result (λ sealing. sealing ≡ record { leaf = leaf; statement = statement.now }) }
    ensures memory { IsOkUnless result words.OutOfMemory }
{
    let statement = statement.copy(alloc)?;
    let sealing = Shared::new(alloc, Sealing { leaf, statement })?;
    Ok(sealing)
}

fn copy_share(alloc: Global, statement: &Statement, signed: &Signed) -> Result<Share, WordsError>
    ensures equal { IfOk result (λ share. share ≡ record { statement = statement.now; seal = signed.now.seal }) }
    ensures memory { IsOkUnless result words.OutOfMemory }
{
    Ok(Share {
        statement: statement.copy(alloc)?,
        seal: signed.seal.copy(alloc)?,
    })
}

// The item of a Prepare or a Proposal.
fn share_backed(
    alloc: Global,
    statement: &Statement,
    quorum: &Quorum,
) -> Result<Option<Shared<Backed>>, WordsError>
    ensures backed { IfOk result (λ backed. backed ≡ backed_by statement.now quorum.now) }
    ensures memory { IsOkUnless result words.OutOfMemory }
{
    let (view, local, value) = match statement {
        Statement::Prepare {
            view,
            local,
            value,
            ..
        } => (view.0, local.0, value),
        Statement::Proposal {
            view,
            local,
            value,
            ..
        } => (view.0, local.0, value),
        _ => return Ok(None),
    };
    let value = value.copy(alloc)?;
    let quorum = quorum.copy(alloc)?;
    let backed = Shared::new(
        alloc,
        Backed {
            view,
            local,
            value,
            quorum,
        },
    )?;
    Ok(Some(backed))
}
