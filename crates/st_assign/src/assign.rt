ghost use Rattle.std.specs.Prelude.{◌≡◌, ℕ, ◌+◌, ◌*◌, ◌^◌, ◌<◌, ◌≤◌, IfOk, IsOkUnless};
ghost use Rattle.st_fields.specs.declared.error.WordsError.TheVariants as words;
ghost use Rattle.st_words.specs.declared.value.Value.{Value as Worth};
ghost use Rattle.st_protocol.specs.Words.{a_prepare};
ghost use Rattle.st_protocol.specs.Assigning as assigning;
ghost use Rattle.st_protocol.specs.Assigning.{assign_reasons, assign_step};
ghost use Rattle.st_protocol.specs.Part.{Answers, first_reason};
ghost use Rattle.st_protocol.specs.Step as steps;
ghost use Rattle.st_state.specs.HereView.{Serve, here_of};
ghost use Rattle.st_state.specs.ForcedView.{forced_by};
ghost use Rattle.st_state.specs.Placed.{Fits};
ghost use Rattle.st_state.specs.SlotsView.{slots_of};
ghost use Rattle.st_shares.specs.Known.{IsKnown};
ghost use Rattle.st_assign.specs.Parts.{assign_answer};
ghost use Rattle.st_assign.specs.Reasons.{place_reasons, value_reasons, room_reasons};

use crate::above::is_forced_above;
use crate::prepares::{completes_prepare, is_spent, keeps_prepare, one_if, prepare_at, proposes};
use st_fields::{Bytes, WordsError};
use st_message::{Form, Here, Message, Reason, Refused, Step};
use st_seal::Signed;
use st_shares::{
    Slot, complete, entry_of, idle, made_prepare, making, out_of_window, prepare_row, rep,
    same_value, then, to_site,
};
use st_state::{Forced, Slots};
use st_words::{LAST_NUMBER, Number, Statement, Value};
use std::alloc::Global;

/// What a server does at an assignment by its representative in the leading site: it makes its own
/// Prepare, unless it made one there, and keeps the representative's as a share, which may complete the
/// slot. `forced` is what the held unions force.
pub fn on_assign(
    alloc: Global,
    here: &Here,
    slots: &Slots,
    forced: &Forced,
    message: &Message,
) -> Result<Step, Refused>
    requires known { IsKnown here.now }
    ensures answers { (clients : ℕ) (serve : Serve) → let h = here_of clients serve here.now in Answers result (assign_answer h (slots_of h slots.now) (forced_by h forced.now) message.now) }
    ensures fits { (clients : ℕ) (serve : Serve) → IfOk result (Fits (here_of clients serve here.now)) }
{
    let Message::Assign {
        view,
        local,
        number,
        value,
        client_seal,
        signed,
    } = message
    else {
        return Err(Refused::Ignored(Reason::NotMine));
    };
    let slot = Slot {
        view: *view,
        local: *local,
        number: *number,
    };
    let statement = prepare_at(alloc, here.me.site, slot, value)?;
    if let Some(reason) = reason_of(
        here,
        slots,
        forced,
        slot,
        value,
        client_seal,
        &statement,
        signed,
    ) {
        return Err(Refused::Ignored(reason));
    }
    let step = step_of(alloc, here, slots, slot, value, statement, signed)?;
    Ok(step)
}

// The first reason to ignore the assignment, if there is one.
#[tactic(auto, using(crate::proofs::ReasonLaws::assign_reason))]
fn reason_of(
    here: &Here,
    slots: &Slots,
    forced: &Forced,
    slot: Slot,
    value: &Value,
    client_seal: &Bytes,
    statement: &Statement,
    signed: &Signed,
) -> Option<Reason>
    requires { IsKnown here.now }
    ensures { (clients : ℕ) (serve : Serve) → statement.now ≡ a_prepare here.now.me.site slot.view.0 slot.local.0 slot.number.0 value.now → let h = here_of clients serve here.now in result ≡ first_reason (assign_reasons h (slots_of h slots.now) (forced_by h forced.now) slot.view.0 slot.local.0 slot.number.0 value.now client_seal.now signed.now) }
{
    if let Some(reason) = place_reason(here, slots, slot, signed) {
        return Some(reason);
    }
    let new = assigns(here, slots, slot);
    if let Some(reason) = value_reason(here, forced, slot.number, value, client_seal, new) {
        return Some(reason);
    }
    let wanted = one_if(new) + proposals(here, slots, slot, statement, signed);
    room_reason(here, wanted, slot.number)
}

// The first reason that the assignment isn't the representative's of the present views and the window.
fn place_reason(here: &Here, slots: &Slots, slot: Slot, signed: &Signed) -> Option<Reason>
    requires { IsKnown here.now }
    ensures { (clients : ℕ) (serve : Serve) → let h = here_of clients serve here.now in result ≡ first_reason (place_reasons h (slots_of h slots.now) slot.view.0 slot.local.0 slot.number.0 signed.now) }
{
    if slot.view.0 % here.sites as u32 != here.me.site as u32 {
        Some(Reason::NotMine)
    } else if slot.view != here.view || slot.local != here.local {
        Some(Reason::OtherView {
            view: here.view.0,
            local: here.local.0,
        })
    } else if out_of_window(here, slot.number) {
        Some(Reason::OutOfWindow {
            number: slot.number.0,
            executed: here.executed,
        })
    } else if signed.index != rep(here) {
        Some(Reason::NotRep { index: rep(here) })
    } else if entry_of(prepare_row(here, slots, slot), signed.index as usize).is_some() {
        Some(Reason::Seen)
    } else {
        None
    }
}

// The first reason that the value may not stand there, if a Prepare of it is to be made.
#[tactic(auto, using(crate::proofs::ReasonLaws::forced_base, crate::proofs::ReasonLaws::forced_held, crate::proofs::ReasonLaws::forced_wanted))]
fn value_reason(
    here: &Here,
    forced: &Forced,
    number: Number,
    value: &Value,
    client_seal: &Bytes,
    new: bool,
) -> Option<Reason>
    requires { here.now.executed + 16 < 2 ^ 32 }
    ensures { (clients : ℕ) (serve : Serve) → let h = here_of clients serve here.now in result ≡ first_reason (value_reasons h (forced_by h forced.now) number.0 value.now client_seal.now new) }
{
    if !new {
        None
    } else if forced.waits() {
        Some(Reason::Waiting {
            held: forced.held,
            wanted: forced.wanted,
        })
    } else if number.0 <= forced.base {
        Some(Reason::Below {
            number: number.0,
            base: forced.base,
        })
    } else if is_other_value(here, forced, number.0, value, client_seal) {
        Some(Reason::OtherValue)
    } else {
        None
    }
}

// The first reason that too few leaves are left, or numbers.
fn room_reason(here: &Here, wanted: u32, number: Number) -> Option<Reason>
    ensures { (clients : ℕ) (serve : Serve) → result ≡ first_reason (room_reasons (here_of clients serve here.now) wanted number.0) }
{
    if is_spent(here, wanted) {
        Some(Reason::SealsSpent { used: here.leaf })
    } else if number.0 > LAST_NUMBER {
        Some(Reason::LogFull { number: number.0 })
    } else {
        None
    }
}

// Whether this server made no Prepare at the slot.
fn assigns(here: &Here, slots: &Slots, slot: Slot) -> bool
    ensures { (clients : ℕ) (serve : Serve) → result ≡ assigning.assigns (slots_of (here_of clients serve here.now) slots.now) slot.view.0 slot.local.0 slot.number.0 }
{
    made_prepare(here, slots, slot).is_none()
}

// How many Proposals follow: one where the share completes a slot at which none was made.
fn proposals(here: &Here, slots: &Slots, slot: Slot, statement: &Statement, signed: &Signed) -> u32
    ensures value { (clients : ℕ) (serve : Serve) (value : Worth) → statement.now ≡ a_prepare here.now.me.site slot.view.0 slot.local.0 slot.number.0 value → let h = here_of clients serve here.now in let done = assigning.completes_assigned h (slots_of h slots.now) slot.view.0 slot.local.0 slot.number.0 value signed.now in result ≡ steps.one_if (assigning.proposes (slots_of h slots.now) slot.view.0 slot.local.0 slot.number.0 done) }
    ensures most { result ≤ 1 }
{
    let done = keeps_assigned(here, slots, slot)
        && completes_prepare(here, slots, slot, statement, signed);
    one_if(proposes(here, slots, slot, done))
}

// Whether the representative's Prepare is kept as a share: the slot isn't complete.
fn keeps_assigned(here: &Here, slots: &Slots, slot: Slot) -> bool
    ensures { (clients : ℕ) (serve : Serve) → let h = here_of clients serve here.now in result ≡ assigning.keeps_assigned h (slots_of h slots.now) slot.view.0 slot.local.0 slot.number.0 }
{
    !complete(here, prepare_row(here, slots, slot))
}

// Whether it isn't a value that may stand at the number.
fn is_other_value(
    here: &Here,
    forced: &Forced,
    number: u32,
    value: &Value,
    client_seal: &Bytes,
) -> bool
    requires { here.now.executed + 16 < 2 ^ 32 }
    ensures { (clients : ℕ) (serve : Serve) → let h = here_of clients serve here.now in result ≡ assigning.is_other_value h (forced_by h forced.now) number value.now client_seal.now }
{
    if let Some(forced) = forced.value(here, number) {
        return !same_value(forced, value);
    }
    match value {
        Value::Noop => !is_forced_above(here, forced, number),
        Value::Update(_) => is_empty(client_seal),
    }
}

// Whether there are no bytes.
#[tactic(auto, using(crate::proofs::ReasonLaws::is_empty_by))]
fn is_empty(bytes: &Bytes) -> bool
    ensures { result ≡ assigning.is_empty bytes.now }
{
    bytes.len() == 0
}

// This server's Prepare is made, unless it was, and the representative's kept as a share.
fn step_of(
    alloc: Global,
    here: &Here,
    slots: &Slots,
    slot: Slot,
    value: &Value,
    statement: Statement,
    signed: &Signed,
) -> Result<Step, WordsError>
    requires { IsKnown here.now }
    ensures equal { IfOk result (λ step. (clients : ℕ) (serve : Serve) → statement ≡ a_prepare here.now.me.site slot.view.0 slot.local.0 slot.number.0 value.now → let h = here_of clients serve here.now in step ≡ assign_step h (slots_of h slots.now) slot.view.0 slot.local.0 slot.number.0 value.now signed.now) }
    ensures memory { IsOkUnless result words.OutOfMemory }
{
    let new = assigns(here, slots, slot);
    let leaf = here.leaf + one_if(new);
    let kept = kept_share(alloc, here, slots, leaf, slot, value, &statement, signed)?;
    if !new {
        return Ok(kept);
    }
    let made = making(alloc, here.leaf, statement, Form::Share, to_site(here))?;
    let step = then(made, kept)?;
    Ok(step)
}

// The representative's Prepare is kept as a share, unless the slot is complete.
fn kept_share(
    alloc: Global,
    here: &Here,
    slots: &Slots,
    leaf: u32,
    slot: Slot,
    value: &Value,
    statement: &Statement,
    signed: &Signed,
) -> Result<Step, WordsError>
    requires { 3 * here.now.f < 256 }
    ensures equal { IfOk result (λ step. (clients : ℕ) (serve : Serve) → statement.now ≡ a_prepare here.now.me.site slot.view.0 slot.local.0 slot.number.0 value.now → let h = here_of clients serve here.now in let kept = assigning.keeps_assigned h (slots_of h slots.now) slot.view.0 slot.local.0 slot.number.0 in step ≡ steps.when kept (assigning.keeps_prepare h (slots_of h slots.now) leaf here.now.me.site slot.view.0 slot.local.0 slot.number.0 value.now signed.now)) }
    ensures memory { IsOkUnless result words.OutOfMemory }
{
    if !keeps_assigned(here, slots, slot) {
        return Ok(idle(alloc));
    }
    let step = keeps_prepare(alloc, here, slots, leaf, slot, value, statement, signed)?;
    Ok(step)
}
