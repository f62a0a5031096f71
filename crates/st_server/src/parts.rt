ghost use Rattle.std.specs.Prelude.{◌≡◌, ℕ, ◌<◌, List, IfOk, None, Some};
ghost use Rattle.std.specs.Option.{option_copied};
ghost use Rattle.st_message.specs.declared.message.Message.TheVariants as messages;
ghost use Rattle.st_tables.specs.Entries.{entry};
ghost use Rattle.st_protocol.specs.Keeping.{given};
ghost use Rattle.st_protocol.specs.State.{Answers};
ghost use Rattle.st_protocol.specs.Part as part;
ghost use Rattle.st_protocol.specs.Duty.{of_message};
ghost use Rattle.st_protocol.specs.Forced.{forced_of};
ghost use Rattle.st_assign.specs.Parts.{assign_answer};
ghost use Rattle.st_state.specs.Placed.{Fits};
ghost use Rattle.st_shares.specs.Known.{IsKnown, IsKnownMessage};
ghost use Rattle.st_live.specs.LiveView.{place_here, IsLive};
ghost use Rattle.st_server.specs.Bounds.{IsSound};

use st_assign::{on_assign, on_prepare, on_proposal_share, on_update};
use st_live::Live;
use st_message::{Message, Reason, Refused, Sealing, Step};
use st_order::{on_accept, on_accept_share, on_proposal};
use st_seal::{Quorum, Signed};
use st_state::Forced;
use st_tables::Table;
use st_words::{Statement, Update};
use std::alloc::Global;

/// What the part that takes a message answers; `replies` are the Replies that the server made, by number.
pub fn answer_to(
    alloc: Global,
    live: &Live,
    replies: &Table<Sealing>,
    message: &Message,
) -> Result<Step, Refused>
    requires sound { IsSound live.now }
    requires known { IsKnownMessage live.now.here message.now }
    ensures answers { (q : Answers) → IsLive live.now q → ((n : ℕ) → q.making.reply n ≡ entry replies.now n) → part.Answers result (of_message q message.now) }
    ensures fits { IfOk result (Fits (place_here live.now)) }
{
    match message {
        Message::Update { update, .. } => answer_update(alloc, live, replies, update, message),
        Message::Assign { .. } => answer_assign(alloc, live, message),
        Message::Share { statement, .. } => answer_share(alloc, live, statement, message),
        Message::Certificate { statement, quorum } => {
            answer_certificate(alloc, live, statement, quorum)
        }
        Message::Reply { .. } => Err(Refused::Ignored(Reason::NotMine)),
        _ => Err(Refused::Ignored(Reason::NotBuilt)),
    }
}

// Clients' updates.
fn answer_update(
    alloc: Global,
    live: &Live,
    replies: &Table<Sealing>,
    update: &Update,
    message: &Message,
) -> Result<Step, Refused>
    ensures answers { (q : Answers) (seal : List ℕ) → IsLive live.now q → ((n : ℕ) → q.making.reply n ≡ entry replies.now n) → message.now ≡ messages.Update update.now seal → part.Answers result (of_message q message.now) }
    ensures fits { IfOk result (Fits (place_here live.now)) }
{
    let last = live.clients.last(update.client);
    let place = live.clients.place(update.client);
    let reply = statement_of(replies.get(place as usize));
    on_update(alloc, &live.here, &live.pending, last, reply, message)
}

fn statement_of(made: Option<&Sealing>) -> Option<&Statement>
    ensures { option_copied result ≡ given (option_copied made.entry) None (λ m. Some m.statement) }
{
    match made {
        Some(made) => Some(&made.statement),
        None => None,
    }
}

// The representative's assignments.
fn answer_assign(alloc: Global, live: &Live, message: &Message) -> Result<Step, Refused>
    requires { IsKnown live.now.here }
    ensures answers { (q : Answers) → IsLive live.now q → part.Answers result (assign_answer q.here q.slots (forced_of q.here q.unions) message.now) }
    ensures fits { IfOk result (Fits (place_here live.now)) }
{
    let forced = Forced::without_unions(alloc, &live.here)?;
    on_assign(alloc, &live.here, &live.slots, &forced, message)
}

// Servers' shares.
fn answer_share(
    alloc: Global,
    live: &Live,
    statement: &Statement,
    message: &Message,
) -> Result<Step, Refused>
    requires here { IsKnown live.now.here }
    requires known { IsKnownMessage live.now.here message.now }
    ensures answers { (q : Answers) (signed : Signed) → IsLive live.now q → message.now ≡ messages.Share statement.now signed → part.Answers result (of_message q message.now) }
    ensures fits { IfOk result (Fits (place_here live.now)) }
{
    match statement {
        Statement::Prepare { .. } => on_prepare(alloc, &live.here, &live.slots, message),
        Statement::Proposal { .. } => on_proposal_share(alloc, &live.here, &live.slots, message),
        Statement::Accept { .. } => on_accept_share(alloc, &live.here, &live.slots, message),
        _ => Err(Refused::Ignored(Reason::NotBuilt)),
    }
}

// Sites' certificates.
fn answer_certificate(
    alloc: Global,
    live: &Live,
    statement: &Statement,
    quorum: &Quorum,
) -> Result<Step, Refused>
    requires here { IsKnown live.now.here }
    requires known { IsKnownMessage live.now.here (messages.Certificate statement.now quorum.now) }
    ensures answers { (q : Answers) → IsLive live.now q → part.Answers result (of_message q (messages.Certificate statement.now quorum.now)) }
    ensures fits { IfOk result (Fits (place_here live.now)) }
{
    match statement {
        Statement::Proposal { .. } => {
            on_proposal(alloc, &live.here, &live.slots, statement, quorum)
        }
        Statement::Accept { .. } => on_accept(alloc, &live.here, &live.hand, statement, quorum),
        _ => Err(Refused::Ignored(Reason::NotBuilt)),
    }
}
