ghost use Rattle.std.specs.Prelude.{◌≡◌, ℕ, ◌+◌, Option, IfOk, IsOkUnless};
ghost use Rattle.std.specs.Option.{option_copied};
ghost use Rattle.st_fields.specs.declared.error.WordsError.TheVariants as words;
ghost use Rattle.st_protocol.specs.State.{Pended, Sealing};
ghost use Rattle.st_protocol.specs.Assigning.{is_seen_update, update_reasons, update_step};
ghost use Rattle.st_protocol.specs.Part.{Answers, first_reason};
ghost use Rattle.st_state.specs.HereView.{Serve, here_of};
ghost use Rattle.st_state.specs.Placed.{Fits};
ghost use Rattle.st_state.specs.ClientsView.{pending_of};
ghost use Rattle.st_assign.specs.Parts.{client_in, update_answer};
ghost use Rattle.st_assign.specs.Replied.{IsReply};

use st_fields::{Bytes, Copied, WordsError};
use st_message::{Form, Here, Message, Out, Reason, Refused, Scope, Step};
use st_shares::{idle, keeping, putting};
use st_state::Pending;
use st_words::{LAST_NUMBER, Statement, Update};
use std::alloc::Global;

/// What a server does at a client's update: one of the client's last time is answered by its Reply
/// again, and a later one waits for a number. `last` is the last time of the message's client, and
/// `reply` the Reply that this server made to it, if it made one.
pub fn on_update(
    alloc: Global,
    here: &Here,
    pending: &Pending,
    last: u32,
    reply: Option<&Statement>,
    message: &Message,
) -> Result<Step, Refused>
    ensures answers { (clients : ℕ) (serve : Serve) (lasts : ℕ → ℕ) (made : Option Sealing) → lasts (client_in message.now) ≡ last → IsReply made (option_copied reply.entry) → Answers result (update_answer (here_of clients serve here.now) (pending_of lasts pending.now) last made message.now) }
    ensures fits { (clients : ℕ) (serve : Serve) → IfOk result (Fits (here_of clients serve here.now)) }
{
    let Message::Update { update, seal } = message else {
        return Err(Refused::Ignored(Reason::NotMine));
    };
    if let Some(reason) = reason_of(here, pending, last, reply, update) {
        return Err(Refused::Ignored(reason));
    }
    let step = step_of(alloc, last, reply, update, seal)?;
    Ok(step)
}

// The first reason to ignore the update, if there is one.
fn reason_of(
    here: &Here,
    pending: &Pending,
    last: u32,
    reply: Option<&Statement>,
    update: &Update,
) -> Option<Reason>
    ensures { (clients : ℕ) (serve : Serve) (lasts : ℕ → ℕ) (made : Option Sealing) → lasts update.now.client.0 ≡ last → IsReply made (option_copied reply.entry) → result ≡ first_reason (update_reasons (here_of clients serve here.now) (pending_of lasts pending.now) last made update.now) }
{
    if is_pending(pending, last, update) {
        Some(Reason::Seen)
    } else if update.time < last || (update.time == last && reply.is_none()) {
        Some(Reason::OldTime { last })
    } else if here.executed >= LAST_NUMBER {
        Some(Reason::LogFull {
            number: LAST_NUMBER + 1,
        })
    } else {
        None
    }
}

// Whether an update of the client is pending whose time is at least as great.
fn is_pending(pending: &Pending, last: u32, update: &Update) -> bool
    ensures { (lasts : ℕ → ℕ) → lasts update.now.client.0 ≡ last → result ≡ is_seen_update update.now.time (pending_of lasts pending.now update.now.client.0) }
{
    match pending.get(update.client, last) {
        Some(pended) => update.time <= pended.update.time,
        None => false,
    }
}

// The Reply goes out again, or the update waits.
fn step_of(
    alloc: Global,
    last: u32,
    reply: Option<&Statement>,
    update: &Update,
    seal: &Bytes,
) -> Result<Step, WordsError>
    ensures equal { IfOk result (λ step. (made : Option Sealing) → IsReply made (option_copied reply.entry) → step ≡ update_step last made update.now seal.now) }
    ensures memory { IsOkUnless result words.OutOfMemory }
{
    if update.time != last {
        let step = keeping(
            alloc,
            Message::Update {
                update: update.copy(alloc)?,
                seal: seal.copy(alloc)?,
            },
        )?;
        return Ok(step);
    }
    let Some(reply) = reply else {
        return Ok(idle(alloc));
    };
    let step = putting(
        alloc,
        Out::Make {
            statement: reply.copy(alloc)?,
            form: Form::Reply,
            to: Scope::Client(update.client),
        },
    )?;
    Ok(step)
}
