ghost use Rattle.std.specs.Prelude.{◌≡◌, ℕ, ◌+◌, ◌-◌, ◌^◌, ◌<◌, ◌≤◌, false, nat_lt, Some, IfOk, OnOk, OnErr, IsOkUnless};
ghost use Rattle.st_fields.specs.declared.error.WordsError.TheVariants as words;
ghost use Rattle.st_words.specs.declared.ids.SiteId.{SiteId};
ghost use Rattle.st_words.specs.declared.ids.LocalView.{LocalView};
ghost use Rattle.st_words.specs.declared.value.Value.{Value};
ghost use Rattle.st_words.specs.declared.statement.Statement.TheVariants as statements;
ghost use Rattle.std.specs.Option.{option_copied};
ghost use Rattle.st_protocol.specs.Keeping.{given, greatest_last};
ghost use Rattle.st_protocol.specs.Words.{local_of as local_in};
ghost use Rattle.st_protocol.specs.State.{Here as At, completed_local};
ghost use Rattle.st_protocol.specs.Growth.{own_takes, own_cuts};
ghost use Rattle.st_state.specs.HereView.{Serve, here_of};
ghost use Rattle.st_tables.specs.Window.{kept};
ghost use Rattle.st_state.specs.Writes.{Puts};
ghost use Rattle.st_state.specs.OwnView.{own_of, no_own, own_certificate};

use st_fields::{Copied, Shared, WordsError};
use st_message::{Completed, Here};
use st_seal::Quorum;
use st_tables::Ring;
use st_words::{Number, Statement};
use std::alloc::Global;

/// The certificates that this server completed since its start: per number of the window, that of the
/// present view's Proposal with the highest local view, and that of the present view's Accept.
#[derive(Drop)]
pub struct Own {
    proposals: Ring<Completed>,
    accepts: Ring<Completed>,
}

#[tactic(auto, unfolding(crate::specs::OwnView::own_of))]
impl Own {
    /// No certificate.
    pub fn new(alloc: Global) -> Result<Own, WordsError>
        ensures empty { IfOk result (λ own. (at : At) → own_of at own ≡ no_own) }
        ensures memory { IsOkUnless result words.OutOfMemory }
    {
        Ok(Own {
            proposals: Ring::new(alloc)?,
            accepts: Ring::new(alloc)?,
        })
    }

    /// Notes the certificate of a Proposal of the present view; of two of a number that of the higher
    /// local view stays, of equals the last, and one of an executed number is dropped.
    pub fn keep_proposal(
        &mut self,
        alloc: Global,
        here: &Here,
        number: Number,
        statement: &Statement,
        quorum: &Quorum,
    ) -> Result<(), WordsError>
        requires below { number.0 ≤ here.now.executed + 16 }
        ensures ok { OnOk result ((clients : ℕ) (serve : Serve) (site : SiteId) (local : LocalView) (value : Value) → statement.now ≡ statements.Proposal site here.now.view local number value → let h = here_of clients serve here.now in own_of h self.new ≡ own_cuts h (own_takes (own_certificate statement.now quorum.now) (own_of h self.old))) }
        ensures err { OnErr result (self.new ≡ self.old) }
        ensures memory { IsOkUnless result words.OutOfMemory }
    {
        if number.0 <= here.executed {
            return Ok(());
        }
        let completed = share_completed(alloc, statement, quorum)?;
        keep_higher_local(&mut self.proposals, here.executed, number.0, completed);
        Ok(())
    }

    /// Notes the certificate of an Accept of the present view; of two of a number the last stays, and one
    /// of an executed number is dropped.
    pub fn keep_accept(
        &mut self,
        alloc: Global,
        here: &Here,
        number: Number,
        statement: &Statement,
        quorum: &Quorum,
    ) -> Result<(), WordsError>
        requires below { number.0 ≤ here.now.executed + 16 }
        ensures ok { OnOk result ((clients : ℕ) (serve : Serve) (site : SiteId) (value : Value) → statement.now ≡ statements.Accept site here.now.view number value → let h = here_of clients serve here.now in own_of h self.new ≡ own_cuts h (own_takes (own_certificate statement.now quorum.now) (own_of h self.old))) }
        ensures err { OnErr result (self.new ≡ self.old) }
        ensures memory { IsOkUnless result words.OutOfMemory }
    {
        if number.0 <= here.executed {
            return Ok(());
        }
        let completed = share_completed(alloc, statement, quorum)?;
        self.accepts.set(number.0, Some(completed));
        Ok(())
    }

    /// Moves the window up by the number that is executed, of which all is dropped.
    pub fn move_up(&mut self, here: &Here)
        requires { here.now.executed < 2 ^ 32 - 1 }
        ensures { (clients : ℕ) (serve : Serve) → let h = here_of clients serve here.now in own_of (record h { executed = h.executed + 1 }) self.new ≡ own_cuts (record h { executed = h.executed + 1 }) (own_of h self.old) }
    {
        self.proposals.move_up(here.executed);
        self.accepts.move_up(here.executed);
    }

    /// An equal value.
    pub fn copy(&self, alloc: Global) -> Result<Own, WordsError>
        ensures equal { IfOk result (λ copy. copy ≡ self.now) }
        ensures memory { IsOkUnless result words.OutOfMemory }
    {
        Ok(Own {
            proposals: self.proposals.copy(alloc)?,
            accepts: self.accepts.copy(alloc)?,
        })
    }
}

// Writes the entry of a number of the window above `base`, unless there is one of a higher local view.
fn keep_higher_local(
    ring: &mut Ring<Completed>,
    base: u32,
    number: u32,
    completed: Shared<Completed>,
)
    requires above { base < number }
    requires below { number ≤ base + 16 }
    ensures { Puts base ring.old ring.new number (greatest_last completed_local (kept base ring.old number) (Some completed)) }
{
    let local = local_of(&completed.get().statement);
    if !is_higher(ring.get(base, number), local) {
        ring.set(number, Some(completed));
    }
}

// Whether a certificate is there and its local view is above this one.
fn is_higher(completed: Option<&Completed>, local: u32) -> bool
    ensures { result ≡ given (option_copied completed.entry) false (λ c. nat_lt local (completed_local c)) }
{
    match completed {
        Some(completed) => local < local_of(&completed.statement),
        None => false,
    }
}

// The local view of a Prepare or a Proposal, and 0 of every other statement.
fn local_of(statement: &Statement) -> u32
    ensures { result ≡ local_in statement.now }
{
    match statement {
        Statement::Prepare { local, .. } => local.0,
        Statement::Proposal { local, .. } => local.0,
        _ => 0,
    }
}

fn share_completed(
    alloc: Global,
    statement: &Statement,
    quorum: &Quorum,
) -> Result<Shared<Completed>, WordsError>
    ensures equal { IfOk result (λ completed. completed ≡ record { statement = statement.now; quorum = quorum.now }) }
    ensures memory { IsOkUnless result words.OutOfMemory }
{
    let statement = statement.copy(alloc)?;
    let quorum = quorum.copy(alloc)?;
    let completed = Shared::new(alloc, Completed { statement, quorum })?;
    Ok(completed)
}
