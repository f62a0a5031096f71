ghost use Rattle.std.specs.Prelude.{◌≡◌, ℕ, ◌*◌, ◌<◌, IfOk};
ghost use Rattle.st_protocol.specs.Assigning.{proposal_share_reasons};
ghost use Rattle.st_protocol.specs.Part.{Answers, first_reason};
ghost use Rattle.st_state.specs.HereView.{Serve, here_of};
ghost use Rattle.st_state.specs.Placed.{Fits};
ghost use Rattle.st_state.specs.SlotsView.{slots_of};
ghost use Rattle.st_shares.specs.Known.{IsKnown, IsKnownMessage};
ghost use Rattle.st_assign.specs.Parts.{proposal_share_answer};

use st_message::{Here, Message, Reason, Refused, Scope, Step};
use st_seal::Signed;
use st_shares::{Slot, certifies, is_seen_share, out_of_window, proposal_row, rep};
use st_state::Slots;
use st_words::{LAST_NUMBER, SiteId, Statement};
use std::alloc::Global;

/// What a server does at a share of a Proposal: the representative keeps it, and where it completes its
/// slot sends the certificate to all servers.
pub fn on_proposal_share(
    alloc: Global,
    here: &Here,
    slots: &Slots,
    message: &Message,
) -> Result<Step, Refused>
    requires known { IsKnown here.now }
    requires sender { IsKnownMessage here.now message.now }
    ensures answers { (clients : ℕ) (serve : Serve) → let h = here_of clients serve here.now in Answers result (proposal_share_answer h (slots_of h slots.now) message.now) }
    ensures fits { (clients : ℕ) (serve : Serve) → IfOk result (Fits (here_of clients serve here.now)) }
{
    let Message::Share { statement, signed } = message else {
        return Err(Refused::Ignored(Reason::NotMine));
    };
    let Statement::Proposal {
        site,
        view,
        local,
        number,
        ..
    } = statement
    else {
        return Err(Refused::Ignored(Reason::NotMine));
    };
    let slot = Slot {
        view: *view,
        local: *local,
        number: *number,
    };
    if let Some(reason) = reason_of(here, slots, *site, slot, signed) {
        return Err(Refused::Ignored(reason));
    }
    let row = proposal_row(here, slots, slot);
    let step = certifies(alloc, here, row, statement, signed, Scope::All)?;
    Ok(step)
}

// The first reason to ignore the share, if there is one.
fn reason_of(
    here: &Here,
    slots: &Slots,
    site: SiteId,
    slot: Slot,
    signed: &Signed,
) -> Option<Reason>
    requires { 3 * here.now.f < 256 }
    ensures { (clients : ℕ) (serve : Serve) → let h = here_of clients serve here.now in result ≡ first_reason (proposal_share_reasons h (slots_of h slots.now) site.0 slot.view.0 slot.local.0 slot.number.0 signed.now) }
{
    if site.0 != here.me.site {
        Some(Reason::NotMine)
    } else if slot.view != here.view || slot.local != here.local {
        Some(Reason::OtherView {
            view: here.view.0,
            local: here.local.0,
        })
    } else if out_of_window(here, slot.number) {
        Some(Reason::OutOfWindow {
            number: slot.number.0,
            executed: here.executed,
        })
    } else if here.me.index != rep(here) {
        Some(Reason::NotRep { index: rep(here) })
    } else if is_seen_share(here, proposal_row(here, slots, slot), signed.index) {
        Some(Reason::Seen)
    } else if slot.number.0 > LAST_NUMBER {
        Some(Reason::LogFull {
            number: slot.number.0,
        })
    } else {
        None
    }
}
