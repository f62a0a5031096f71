ghost use Rattle.std.specs.Prelude.{◌≡◌, ℕ, ◌*◌, ◌<◌, IfOk, IsOkUnless};
ghost use Rattle.st_fields.specs.declared.error.WordsError.TheVariants as words;
ghost use Rattle.st_message.specs.declared.change.Change.TheVariants as changes;
ghost use Rattle.st_message.specs.declared.step.Form.TheVariants as forms;
ghost use Rattle.st_protocol.specs.Words.{an_accept};
ghost use Rattle.st_protocol.specs.Step as steps;
ghost use Rattle.st_protocol.specs.Ordering.{proposal_reasons};
ghost use Rattle.st_protocol.specs.Part.{Answers, first_reason};
ghost use Rattle.st_state.specs.HereView.{Serve, here_of};
ghost use Rattle.st_state.specs.Placed.{Fits};
ghost use Rattle.st_state.specs.SlotsView.{slots_of};
ghost use Rattle.st_shares.specs.Known.{IsKnown};
ghost use Rattle.st_shares.specs.Sites.{rep_scope};
ghost use Rattle.st_order.specs.Parts.{proposal_answer};

use st_fields::{Copied, WordsError};
use st_message::{Change, Form, Here, Reason, Refused, Step};
use st_seal::Quorum;
use st_shares::{made_accept, making, out_of_window, recording, then, to_rep};
use st_state::Slots;
use st_words::{LAST_NUMBER, Number, SiteId, Statement, Value, View};
use std::alloc::Global;

/// What a server does at a site's certificate of a Proposal: it notes that the Proposal is accepted,
/// and sends its share of the Accept to its representative.
pub fn on_proposal(
    alloc: Global,
    here: &Here,
    slots: &Slots,
    statement: &Statement,
    quorum: &Quorum,
) -> Result<Step, Refused>
    requires { IsKnown here.now }
    ensures answers { (clients : ℕ) (serve : Serve) → let h = here_of clients serve here.now in Answers result (proposal_answer h (slots_of h slots.now) statement.now quorum.now) }
    ensures fits { (clients : ℕ) (serve : Serve) → IfOk result (Fits (here_of clients serve here.now)) }
{
    let Statement::Proposal {
        view,
        number,
        value,
        ..
    } = statement
    else {
        return Err(Refused::Ignored(Reason::NotMine));
    };
    if let Some(reason) = reason_of(here, slots, *view, *number) {
        return Err(Refused::Ignored(reason));
    }
    let noted = accepted(alloc, statement, quorum)?;
    let made = making_accept(alloc, here, *view, *number, value)?;
    let step = then(noted, made)?;
    Ok(step)
}

// The first reason to ignore the certificate, if there is one.
fn reason_of(here: &Here, slots: &Slots, view: View, number: Number) -> Option<Reason>
    requires { IsKnown here.now }
    ensures { (clients : ℕ) (serve : Serve) → let h = here_of clients serve here.now in result ≡ first_reason (proposal_reasons h (slots_of h slots.now) view.0 number.0) }
{
    if view != here.view {
        Some(Reason::OtherView {
            view: here.view.0,
            local: here.local.0,
        })
    } else if out_of_window(here, number) {
        Some(Reason::OutOfWindow {
            number: number.0,
            executed: here.executed,
        })
    } else if made_accept(here, slots, view, number).is_some() {
        Some(Reason::Seen)
    } else if here.leaf + 1 > here.capacity {
        Some(Reason::SealsSpent { used: here.leaf })
    } else if number.0 > LAST_NUMBER {
        Some(Reason::LogFull { number: number.0 })
    } else {
        None
    }
}

// The Proposal is accepted.
fn accepted(alloc: Global, statement: &Statement, quorum: &Quorum) -> Result<Step, WordsError>
    ensures equal { IfOk result (λ step. step ≡ steps.recording (changes.Accepted statement.now quorum.now)) }
    ensures memory { IsOkUnless result words.OutOfMemory }
{
    let statement = statement.copy(alloc)?;
    let quorum = quorum.copy(alloc)?;
    let step = recording(alloc, Change::Accepted { statement, quorum })?;
    Ok(step)
}

// This server's share of the Accept is made, and goes to the representative.
fn making_accept(
    alloc: Global,
    here: &Here,
    view: View,
    number: Number,
    value: &Value,
) -> Result<Step, WordsError>
    requires { 3 * here.now.f < 256 }
    ensures equal { IfOk result (λ step. step ≡ steps.making here.now.leaf (an_accept here.now.me.site view.0 number.0 value.now) forms.Share (rep_scope here.now)) }
    ensures memory { IsOkUnless result words.OutOfMemory }
{
    let statement = Statement::Accept {
        site: SiteId(here.me.site),
        view,
        number,
        value: value.copy(alloc)?,
    };
    let step = making(alloc, here.leaf, statement, Form::Share, to_rep(here))?;
    Ok(step)
}
