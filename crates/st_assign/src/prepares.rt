ghost use Rattle.std.specs.Prelude.{◌≡◌, ℕ, ◌+◌, ◌*◌, ◌<◌, ◌≤◌, nat_lt, IfOk, IsOkUnless};
ghost use Rattle.st_fields.specs.declared.error.WordsError.TheVariants as words;
ghost use Rattle.st_protocol.specs.Words.{a_prepare, a_proposal};
ghost use Rattle.st_words.specs.declared.value.Value.{Value as Worth};
ghost use Rattle.st_protocol.specs.Step as steps;
ghost use Rattle.st_protocol.specs.Assigning as assigning;
ghost use Rattle.st_state.specs.HereView.{Serve, here_of};
ghost use Rattle.st_state.specs.SlotsView.{slots_of};

use st_fields::{Copied, WordsError};
use st_message::{Change, Form, Here, Step};
use st_seal::{Quorum, Signed};
use st_shares::{
    Slot, completed, completes, keeping_share, made_proposal, making, prepare_row, recording, then,
    to_rep,
};
use st_state::Slots;
use st_words::{SiteId, Statement, Value};
use std::alloc::Global;

/// The Prepare of a site at a slot.
pub fn prepare_at(
    alloc: Global,
    site: u8,
    slot: Slot,
    value: &Value,
) -> Result<Statement, WordsError>
    ensures equal { IfOk result (λ statement. statement ≡ a_prepare site slot.view.0 slot.local.0 slot.number.0 value.now) }
    ensures memory { IsOkUnless result words.OutOfMemory }
{
    Ok(Statement::Prepare {
        site: SiteId(site),
        view: slot.view,
        local: slot.local,
        number: slot.number,
        value: value.copy(alloc)?,
    })
}

// The Proposal of a site at a slot.
fn proposal_at(alloc: Global, site: u8, slot: Slot, value: &Value) -> Result<Statement, WordsError>
    ensures equal { IfOk result (λ statement. statement ≡ a_proposal site slot.view.0 slot.local.0 slot.number.0 value.now) }
    ensures memory { IsOkUnless result words.OutOfMemory }
{
    Ok(Statement::Proposal {
        site: SiteId(site),
        view: slot.view,
        local: slot.local,
        number: slot.number,
        value: value.copy(alloc)?,
    })
}

/// Whether this share of a Prepare completes its slot.
pub fn completes_prepare(
    here: &Here,
    slots: &Slots,
    slot: Slot,
    statement: &Statement,
    signed: &Signed,
) -> bool
    ensures { (clients : ℕ) (serve : Serve) (site : ℕ) (value : Worth) → statement.now ≡ a_prepare site slot.view.0 slot.local.0 slot.number.0 value → let h = here_of clients serve here.now in result ≡ assigning.completes_prepare h (slots_of h slots.now) site slot.view.0 slot.local.0 slot.number.0 value signed.now }
{
    completes(here, prepare_row(here, slots, slot), statement, signed)
}

/// Whether the slot is complete and this server made no Proposal there.
pub fn proposes(here: &Here, slots: &Slots, slot: Slot, done: bool) -> bool
    ensures { (clients : ℕ) (serve : Serve) → result ≡ assigning.proposes (slots_of (here_of clients serve here.now) slots.now) slot.view.0 slot.local.0 slot.number.0 done }
{
    done && made_proposal(here, slots, slot).is_none()
}

/// 1 if it holds, else 0.
pub fn one_if(b: bool) -> u32
    ensures value { result ≡ steps.one_if b }
    ensures most { result ≤ 1 }
{
    if b { 1 } else { 0 }
}

/// Whether fewer leaves are left than wanted.
pub fn is_spent(here: &Here, wanted: u32) -> bool
    ensures { result ≡ nat_lt here.now.capacity (here.now.leaf + wanted) }
{
    here.leaf as u64 + wanted as u64 > here.capacity as u64
}

/// The share of a Prepare is kept; where it completes its slot, what follows is made from this leaf on.
pub fn keeps_prepare(
    alloc: Global,
    here: &Here,
    slots: &Slots,
    leaf: u32,
    slot: Slot,
    value: &Value,
    statement: &Statement,
    signed: &Signed,
) -> Result<Step, WordsError>
    requires { 3 * here.now.f < 256 }
    ensures equal { IfOk result (λ step. (clients : ℕ) (serve : Serve) (site : ℕ) → statement.now ≡ a_prepare site slot.view.0 slot.local.0 slot.number.0 value.now → let h = here_of clients serve here.now in step ≡ assigning.keeps_prepare h (slots_of h slots.now) leaf site slot.view.0 slot.local.0 slot.number.0 value.now signed.now) }
    ensures memory { IsOkUnless result words.OutOfMemory }
{
    let kept = keeping_share(alloc, statement, signed)?;
    let row = prepare_row(here, slots, slot);
    if !completes(here, row, statement, signed) {
        return Ok(kept);
    }
    let quorum = completed(alloc, here, row, statement, signed)?;
    let prepared = prepares(alloc, here, slots, leaf, slot, value, quorum)?;
    let step = then(kept, prepared)?;
    Ok(step)
}

// The Prepare of the slot is complete: that is recorded, and its Proposal made unless it was.
fn prepares(
    alloc: Global,
    here: &Here,
    slots: &Slots,
    leaf: u32,
    slot: Slot,
    value: &Value,
    quorum: Quorum,
) -> Result<Step, WordsError>
    requires { 3 * here.now.f < 256 }
    ensures equal { IfOk result (λ step. (clients : ℕ) (serve : Serve) → let h = here_of clients serve here.now in step ≡ assigning.prepares h (slots_of h slots.now) leaf slot.view.0 slot.local.0 slot.number.0 value.now quorum) }
    ensures memory { IsOkUnless result words.OutOfMemory }
{
    let statement = prepare_at(alloc, here.me.site, slot, value)?;
    let noted = recording(alloc, Change::Prepared { statement, quorum })?;
    if made_proposal(here, slots, slot).is_some() {
        return Ok(noted);
    }
    let proposal = proposal_at(alloc, here.me.site, slot, value)?;
    let made = making(alloc, leaf, proposal, Form::Share, to_rep(here))?;
    let step = then(noted, made)?;
    Ok(step)
}
