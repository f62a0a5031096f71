ghost use Rattle.std.specs.Prelude.{◌≡◌, ℕ, ◌+◌, ◌≤◌, false, [], ◌∷◌, IfOk, IsOkUnless};
ghost use Rattle.st_fields.specs.declared.error.WordsError.TheVariants as words;
ghost use Rattle.st_message.specs.declared.message.Message.TheVariants as messages;
ghost use Rattle.st_protocol.specs.Growth.{hand_takes, hand_cuts};
ghost use Rattle.st_protocol.specs.Ordering as rules;
ghost use Rattle.st_protocol.specs.Part.{Answers, first_reason};
ghost use Rattle.st_state.specs.HereView.{Serve, here_of};
ghost use Rattle.st_state.specs.HandView.{hand_of, heard_accept};
ghost use Rattle.st_state.specs.Placed.{Fits};
ghost use Rattle.st_shares.specs.Known.{IsKnown, IsKnownMessage};
ghost use Rattle.st_order.specs.Parts.{accept_answer};

use crate::in_hand::executions;
use st_fields::{Copied, Seq, WordsError};
use st_message::{Changes, Heard, Here, Message, Reason, Refused, Step};
use st_seal::Quorum;
use st_shares::{only, out_of_window};
use st_state::Hand;
use st_words::{LAST_NUMBER, Number, SiteId, Statement, Value, View};
use std::alloc::Global;

/// What a server does at a site's certificate of an Accept: it keeps it, and executes the numbers that
/// are then in hand, as far as there is no gap.
pub fn on_accept(
    alloc: Global,
    here: &Here,
    hand: &Hand,
    statement: &Statement,
    quorum: &Quorum,
) -> Result<Step, Refused>
    requires known { IsKnown here.now }
    requires sender { IsKnownMessage here.now (messages.Certificate statement.now quorum.now) }
    ensures answers { (clients : ℕ) (serve : Serve) → let h = here_of clients serve here.now in Answers result (accept_answer h (hand_of h hand.now) statement.now quorum.now) }
    ensures fits { (clients : ℕ) (serve : Serve) → IfOk result (Fits (here_of clients serve here.now)) }
{
    let Statement::Accept {
        site,
        view,
        number,
        value,
    } = statement
    else {
        return Err(Refused::Ignored(Reason::NotMine));
    };
    if let Some(reason) = reason_of(here, hand, *site, *view, *number) {
        return Err(Refused::Ignored(reason));
    }
    let kept = with_accept(alloc, here, hand, *site, *view, *number, value, quorum)?;
    let changes = executions(alloc, here, &kept)?;
    let step = keeping_and_executing(alloc, changes, statement, quorum)?;
    Ok(step)
}

// The first reason to ignore the certificate, if there is one.
fn reason_of(here: &Here, hand: &Hand, site: SiteId, view: View, number: Number) -> Option<Reason>
    ensures { (clients : ℕ) (serve : Serve) → let h = here_of clients serve here.now in result ≡ first_reason (rules.accept_reasons h (hand_of h hand.now) site.0 view.0 number.0) }
{
    if out_of_window(here, number) {
        Some(Reason::OutOfWindow {
            number: number.0,
            executed: here.executed,
        })
    } else if is_seen_word(here, hand, site, view, number) {
        Some(Reason::Seen)
    } else if number.0 > LAST_NUMBER {
        Some(Reason::LogFull { number: number.0 })
    } else {
        None
    }
}

// Whether a word of a higher view is kept, or one of the site at its view.
#[tactic(auto, unfolding(st_state::specs::HandView::hand_of))]
fn is_seen_word(here: &Here, hand: &Hand, site: SiteId, view: View, number: Number) -> bool
    ensures { (clients : ℕ) (serve : Serve) → let h = here_of clients serve here.now in result ≡ rules.is_seen_word (hand_of h hand.now) site.0 view.0 number.0 }
{
    match hand.words(here, number.0) {
        Some(words) => {
            view.0 < words.view
                || (view.0 == words.view && words.sites.get(site.0 as usize).is_some())
        }
        None => false,
    }
}

// The hand with the certificate in it.
fn with_accept(
    alloc: Global,
    here: &Here,
    hand: &Hand,
    site: SiteId,
    view: View,
    number: Number,
    value: &Value,
    quorum: &Quorum,
) -> Result<Hand, WordsError>
    requires { number.0 ≤ here.now.executed + 16 }
    ensures equal { IfOk result (λ kept. (clients : ℕ) (serve : Serve) → let h = here_of clients serve here.now in hand_of h kept ≡ hand_cuts h (hand_takes (heard_accept site view number value.now quorum.now) (hand_of h hand.now))) }
    ensures memory { IsOkUnless result words.OutOfMemory }
{
    let mut kept = hand.copy(alloc)?;
    kept.keep_accept(alloc, here, site, view, number, value, quorum)?;
    Ok(kept)
}

// The certificate is kept, and the numbers are executed.
fn keeping_and_executing(
    alloc: Global,
    changes: Changes,
    statement: &Statement,
    quorum: &Quorum,
) -> Result<Step, WordsError>
    ensures equal { IfOk result (λ step. step ≡ record { changes = changes; heard = record { own = false; message = messages.Certificate statement.now quorum.now } ∷ []; out = [] }) }
    ensures memory { IsOkUnless result words.OutOfMemory }
{
    let statement = statement.copy(alloc)?;
    let quorum = quorum.copy(alloc)?;
    let message = Message::Certificate { statement, quorum };
    let heard = only(
        alloc,
        Heard {
            own: false,
            message,
        },
    )?;
    Ok(Step {
        changes,
        heard,
        out: Seq::new(alloc),
    })
}
