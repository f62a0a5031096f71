ghost use Rattle.std.specs.Prelude.{◌≡◌, ℕ, IfOk};
ghost use Rattle.st_words.specs.declared.value.Value.{Value};
ghost use Rattle.st_protocol.specs.Words.{a_prepare};
ghost use Rattle.st_protocol.specs.Assigning.{prepare_reasons};
ghost use Rattle.st_protocol.specs.Assigning as assigning;
ghost use Rattle.st_protocol.specs.Step as steps;
ghost use Rattle.st_protocol.specs.Part.{Answers, first_reason};
ghost use Rattle.st_state.specs.HereView.{Serve, here_of};
ghost use Rattle.st_state.specs.Placed.{Fits};
ghost use Rattle.st_state.specs.SlotsView.{slots_of};
ghost use Rattle.st_shares.specs.Known.{IsKnown, IsKnownMessage};
ghost use Rattle.st_assign.specs.Parts.{prepare_answer};

use crate::prepares::{completes_prepare, is_spent, keeps_prepare, one_if, proposes};
use st_message::{Here, Message, Reason, Refused, Step};
use st_seal::Signed;
use st_shares::{Slot, is_seen_share, out_of_window, prepare_row};
use st_state::Slots;
use st_words::{LAST_NUMBER, SiteId, Statement};
use std::alloc::Global;

/// What a server does at a share of a Prepare of its site: it keeps it, and where it completes its slot
/// notes that the Prepare is prepared, and sends its share of the Proposal to the representative unless
/// it made one there.
pub fn on_prepare(
    alloc: Global,
    here: &Here,
    slots: &Slots,
    message: &Message,
) -> Result<Step, Refused>
    requires known { IsKnown here.now }
    requires sender { IsKnownMessage here.now message.now }
    ensures answers { (clients : ℕ) (serve : Serve) → let h = here_of clients serve here.now in Answers result (prepare_answer h (slots_of h slots.now) message.now) }
    ensures fits { (clients : ℕ) (serve : Serve) → IfOk result (Fits (here_of clients serve here.now)) }
{
    let Message::Share { statement, signed } = message else {
        return Err(Refused::Ignored(Reason::NotMine));
    };
    let Statement::Prepare {
        site,
        view,
        local,
        number,
        value,
    } = statement
    else {
        return Err(Refused::Ignored(Reason::NotMine));
    };
    let slot = Slot {
        view: *view,
        local: *local,
        number: *number,
    };
    if let Some(reason) = reason_of(here, slots, *site, slot, statement, signed) {
        return Err(Refused::Ignored(reason));
    }
    let step = keeps_prepare(
        alloc, here, slots, here.leaf, slot, value, statement, signed,
    )?;
    Ok(step)
}

// The first reason to ignore the share, if there is one.
fn reason_of(
    here: &Here,
    slots: &Slots,
    site: SiteId,
    slot: Slot,
    statement: &Statement,
    signed: &Signed,
) -> Option<Reason>
    ensures { (clients : ℕ) (serve : Serve) (value : Value) → statement.now ≡ a_prepare site.0 slot.view.0 slot.local.0 slot.number.0 value → let h = here_of clients serve here.now in result ≡ first_reason (prepare_reasons h (slots_of h slots.now) site.0 slot.view.0 slot.local.0 slot.number.0 value signed.now) }
{
    if site.0 != here.me.site {
        Some(Reason::NotMine)
    } else if slot.view != here.view || slot.local != here.local {
        Some(Reason::OtherView {
            view: here.view.0,
            local: here.local.0,
        })
    } else if out_of_window(here, slot.number) {
        Some(Reason::OutOfWindow {
            number: slot.number.0,
            executed: here.executed,
        })
    } else if is_seen_share(here, prepare_row(here, slots, slot), signed.index) {
        Some(Reason::Seen)
    } else if is_spent(here, leaves(here, slots, slot, statement, signed)) {
        Some(Reason::SealsSpent { used: here.leaf })
    } else if slot.number.0 > LAST_NUMBER {
        Some(Reason::LogFull {
            number: slot.number.0,
        })
    } else {
        None
    }
}

// How many leaves the share uses: one where it completes a slot without a Proposal.
fn leaves(here: &Here, slots: &Slots, slot: Slot, statement: &Statement, signed: &Signed) -> u32
    ensures { (clients : ℕ) (serve : Serve) (site : ℕ) (value : Value) → statement.now ≡ a_prepare site slot.view.0 slot.local.0 slot.number.0 value → let h = here_of clients serve here.now in let done = assigning.completes_prepare h (slots_of h slots.now) site slot.view.0 slot.local.0 slot.number.0 value signed.now in result ≡ steps.one_if (assigning.proposes (slots_of h slots.now) slot.view.0 slot.local.0 slot.number.0 done) }
{
    let done = completes_prepare(here, slots, slot, statement, signed);
    one_if(proposes(here, slots, slot, done))
}
