ghost use Rattle.std.specs.Option.{option_copied};
ghost use Rattle.std.specs.Prelude.{◌≡◌, ℕ, ◌+◌, ◌<◌, None, Some, Option, [], IsTrue, List, ◌∷◌, IfOk, OnOk, OnSome, IfSome, IsOkUnless};
ghost use Rattle.st_fields.specs.declared.error.WordsError.TheVariants as words;
ghost use Rattle.st_words.specs.declared.ids.Number.{Number};
ghost use Rattle.st_message.specs.declared.change.Change.{Change};
ghost use Rattle.st_message.specs.declared.change.Change.TheVariants as changes;
ghost use Rattle.st_message.specs.declared.message.Proof.{Proof};
ghost use Rattle.st_tables.specs.Entries.{entry};
ghost use Rattle.st_protocol.specs.Words.{to_client_at};
ghost use Rattle.st_protocol.specs.Keeping.{given, or_else, first_of};
ghost use Rattle.st_protocol.specs.State.{Answers, Sealing, AtPrepare, AtProposal, AtAccept, at_reply as is_reply_at};
ghost use Rattle.st_protocol.specs.Questions.{sealing_in};
ghost use Rattle.st_protocol.specs.Growth.{here_after};
ghost use Rattle.st_protocol.specs.Duty as duty;
ghost use Rattle.st_protocol.specs.Duty.{Course, sealing_of, records, keeps, puts, emits, makes, carries_change, carries_changes, keeps_all, emits_all, carries};
ghost use Rattle.st_state.specs.Placed.{is_placed};
ghost use Rattle.st_live.specs.LiveView.{place_here, IsLive};
ghost use Rattle.st_server.specs.Bounds.{IsSound};
ghost use Rattle.st_server.specs.Ready.{may_record, may_keep, is_ready, are_ready};
ghost use Rattle.st_server.specs.Replying.{reply_by, leaf_in, reply_leaf_in};
ghost use Rattle.st_sealing.specs.Sealing.{pen_by};
ghost use Rattle.st_server.specs.Draw.{Draws, IsDrawn};

use st_fields::{Bytes, Copied, Seq, WordsError};
use st_live::Live;
use st_message::{
    Change, Changes, Form, Heard, HeardList, Message, Out, Output, Outputs, Outs, Proof,
    ReportBody, Scope, Sealing, Step,
};
use st_seal::{Sealer, Signed};
use st_sealing::seal_statement;
use st_shares::{Slot, made_accept, made_prepare, made_proposal};
use st_tables::Table;
use st_words::{ClientId, LocalView, Number, SiteId, Statement, Update, Value, View};
use std::alloc::Global;

/// What the duty at an event comes to: the short state as it is by now, and what was recorded, heard and
/// sent on the way. Where a method is refused memory the draft is of no use any more.
#[derive(Drop)]
pub struct Draft {
    pub live: Live,
    pub changes: Changes,
    pub heard: HeardList,
    pub outputs: Outputs,
}

impl Draft {
    /// The draft of an event at which nothing is done yet.
    pub fn begin(alloc: Global, live: Live) -> Draft
        ensures live { result.live ≡ live }
        ensures draws { (made : ℕ → Option Sealing) (q : Answers) → IsLive live q → ((n : ℕ) → q.making.reply n ≡ made n) → Draws made result (duty.begins q) }
    {
        Draft {
            live,
            changes: Seq::new(alloc),
            heard: Seq::new(alloc),
            outputs: Seq::new(alloc),
        }
    }

    /// Records a change.
    pub fn record(&mut self, alloc: Global, change: Change) -> Result<(), WordsError>
        requires sound { IsSound self.old.live }
        requires ready { IsTrue (may_record (place_here self.old.live) change) }
        ensures draws { OnOk result ((made : ℕ → Option Sealing) (way : Course) → Draws made self.old way → Draws made self.new (records way change)) }
        ensures drawn { OnOk result ((made : ℕ → Option Sealing) → IsDrawn made self.old → IsDrawn made self.new) }
        ensures here { OnOk result (place_here self.new.live ≡ here_after change (place_here self.old.live)) }
        ensures memory { IsOkUnless result words.OutOfMemory }
    {
        self.live.note(alloc, &change)?;
        self.changes.push(change)?;
        Ok(())
    }

    /// Keeps something heard.
    pub fn keep(&mut self, alloc: Global, heard: Heard) -> Result<(), WordsError>
        requires sound { IsSound self.old.live }
        requires ready { IsTrue (may_keep (place_here self.old.live) heard) }
        ensures draws { OnOk result ((made : ℕ → Option Sealing) (way : Course) → Draws made self.old way → Draws made self.new (keeps way heard)) }
        ensures drawn { OnOk result ((made : ℕ → Option Sealing) → IsDrawn made self.old → IsDrawn made self.new) }
        ensures sound { OnOk result (IsSound self.new.live) }
        ensures here { OnOk result (place_here self.new.live ≡ place_here self.old.live) }
        ensures memory { IsOkUnless result words.OutOfMemory }
    {
        self.live.hear(alloc, &heard)?;
        self.heard.push(heard)?;
        Ok(())
    }

    /// Hands out a statement with its own seal, or a message as it is; `id` is the deployment's, and
    /// `replies` are the Replies that were made before the event, by number.
    pub fn emit<S: Sealer>(
        &mut self,
        alloc: Global,
        sealer: &mut S,
        id: u64,
        replies: &Table<Sealing>,
        out: Out,
    ) -> Result<(), WordsError>
        requires drawn { IsDrawn (entry replies.now) self.old }
        requires capacity { (S.pen sealer.old).capacity ≡ self.old.live.here.capacity }
        ensures draws { OnOk result ((way : Course) → Draws (entry replies.now) self.old way → Draws (entry replies.now) self.new (emits (pen_by (S.pen sealer.old) id) way out)) }
        ensures drawn { OnOk result (IsDrawn (entry replies.now) self.new) }
        ensures live { OnOk result (self.new.live ≡ self.old.live) }
        ensures pen { S.pen sealer.new ≡ S.pen sealer.old }
        ensures memory { IsOkUnless result words.OutOfMemory }
    {
        let output = self.sealed(alloc, sealer, id, replies, out)?;
        self.outputs.push(output)?;
        Ok(())
    }

    // What goes out, sealed.
    fn sealed<S: Sealer>(
        &self,
        alloc: Global,
        sealer: &mut S,
        id: u64,
        replies: &Table<Sealing>,
        out: Out,
    ) -> Result<Output, WordsError>
        requires drawn { IsDrawn (entry replies.now) self.now }
        requires capacity { (S.pen sealer.old).capacity ≡ self.now.live.here.capacity }
        ensures output { IfOk result (λ output. (way : Course) → Draws (entry replies.now) self.now way → output ≡ duty.sealed (pen_by (S.pen sealer.old) id) way.now out) }
        ensures pen { S.pen sealer.new ≡ S.pen sealer.old }
        ensures memory { IsOkUnless result words.OutOfMemory }
    {
        match out {
            Out::Send { message, to } => Ok(Output {
                message,
                to,
                leaf: None,
            }),
            Out::Make {
                statement,
                form,
                to,
            } => {
                let leaf = self.leaf_of(replies, &statement);
                let signed = self.signed(alloc, sealer, id, leaf, &statement)?;
                Ok(Output {
                    message: message_of(form, statement, signed),
                    to,
                    leaf,
                })
            }
        }
    }

    // The server's seal over a statement that it made with this leaf, and no bytes where it didn't make it.
    fn signed<S: Sealer>(
        &self,
        alloc: Global,
        sealer: &mut S,
        id: u64,
        leaf: Option<u32>,
        statement: &Statement,
    ) -> Result<Signed, WordsError>
        requires leaf { IfSome leaf (λ k. k < (S.pen sealer.old).capacity) }
        ensures signed { IfOk result (λ signed. signed ≡ record { index = self.now.live.here.me.index; seal = given leaf [] (λ k. pen_by (S.pen sealer.old) id k statement.now) }) }
        ensures pen { S.pen sealer.new ≡ S.pen sealer.old }
        ensures memory { IsOkUnless result words.OutOfMemory }
    {
        let seal = match leaf {
            Some(leaf) => seal_statement(alloc, sealer, id, leaf, statement)?,
            None => Seq::new(alloc),
        };
        Ok(Signed {
            index: self.live.here.me.index,
            seal,
        })
    }

    // The leaf with which the server made the statement, if it made it.
    fn leaf_of(&self, replies: &Table<Sealing>, statement: &Statement) -> Option<u32>
        requires { IsDrawn (entry replies.now) self.now }
        ensures leaf { (way : Course) → Draws (entry replies.now) self.now way → result ≡ given (sealing_of way.now statement.now) None (λ m. Some m.leaf) }
    {
        match statement {
            Statement::Prepare {
                view,
                local,
                number,
                ..
            } => self.prepare_leaf(*view, *local, *number),
            Statement::Proposal {
                view,
                local,
                number,
                ..
            } => self.proposal_leaf(*view, *local, *number),
            Statement::Accept { view, number, .. } => self.accept_leaf(*view, *number),
            Statement::Reply { number, .. } => self.reply_leaf(replies, *number),
            _ => None,
        }
    }

    fn prepare_leaf(&self, view: View, local: LocalView, number: Number) -> Option<u32>
        ensures { (q : Answers) → IsLive self.now.live q → result ≡ given (q.slots.made (AtPrepare view.0 local.0 number.0)) None (λ m. Some m.leaf) }
    {
        let slot = Slot {
            view,
            local,
            number,
        };
        made_leaf(made_prepare(&self.live.here, &self.live.slots, slot))
    }

    fn proposal_leaf(&self, view: View, local: LocalView, number: Number) -> Option<u32>
        ensures { (q : Answers) → IsLive self.now.live q → result ≡ given (q.slots.made (AtProposal view.0 local.0 number.0)) None (λ m. Some m.leaf) }
    {
        let slot = Slot {
            view,
            local,
            number,
        };
        made_leaf(made_proposal(&self.live.here, &self.live.slots, slot))
    }

    fn accept_leaf(&self, view: View, number: Number) -> Option<u32>
        ensures { (q : Answers) → IsLive self.now.live q → result ≡ given (q.slots.made (AtAccept view.0 number.0)) None (λ m. Some m.leaf) }
    {
        made_leaf(made_accept(&self.live.here, &self.live.slots, view, number))
    }

    // The leaf of the Reply of a number: one that was made before the event, else in it.
    #[tactic(auto, unfolding(crate::specs::Replying::reply_leaf_in))]
    fn reply_leaf(&self, replies: &Table<Sealing>, number: Number) -> Option<u32>
        ensures { result ≡ given (or_else (entry replies.now number.0) (first_of (sealing_in (is_reply_at number.0)) self.now.changes)) None (λ m. Some m.leaf) }
    {
        match replies.get(number.0 as usize) {
            Some(made) => Some(made.leaf),
            None => reply_among(self.changes.as_slice(), number),
        }
    }
}

fn made_leaf(made: Option<&Sealing>) -> Option<u32>
    ensures { result ≡ given (option_copied made.entry) None (λ m. Some m.leaf) }
{
    match made {
        Some(made) => Some(made.leaf),
        None => None,
    }
}

// The leaf of the first Reply of the number that the changes make.
#[tactic(auto, using(crate::proofs::FirstLaws::reply_leaf_none, crate::proofs::FirstLaws::reply_leaf_more))]
fn reply_among(changes: &[Change], number: Number) -> Option<u32>
    ensures { result ≡ reply_leaf_in number.0 changes.now }
{
    let mut leaf = None;
    for change in changes {
        leaf = first_of_two(leaf, reply_in(change, number));
    }
    leaf
}

fn first_of_two(first: Option<u32>, second: Option<u32>) -> Option<u32>
    ensures { result ≡ or_else first second }
{
    match first {
        Some(first) => Some(first),
        None => second,
    }
}

// The leaf of the change, if it makes the Reply of the number.
fn reply_in(change: &Change, number: Number) -> Option<u32>
    ensures { result ≡ leaf_in (sealing_in (is_reply_at number.0) change.now) }
{
    match change {
        Change::Made {
            leaf,
            statement: Statement::Reply { number: made, .. },
        } if *made == number => Some(*leaf),
        _ => None,
    }
}

// The message in which a sealed statement goes out.
fn message_of(form: Form, statement: Statement, signed: Signed) -> Message
    ensures { result ≡ duty.message_of form statement signed }
{
    match form {
        Form::Share => Message::Share { statement, signed },
        Form::Assign { client_seal } => assign_of(client_seal, statement, signed),
        Form::Report { quorums, base } => Message::Report {
            report: ReportBody {
                statement,
                seal: signed.seal,
                quorums,
                base,
            },
        },
        Form::Reply => Message::Reply { statement, signed },
    }
}

// An assignment over a Prepare.
fn assign_of(client_seal: Bytes, statement: Statement, signed: Signed) -> Message
    ensures { result ≡ duty.assign_of client_seal signed statement }
{
    match statement {
        Statement::Prepare {
            view,
            local,
            number,
            value,
            ..
        } => Message::Assign {
            view,
            local,
            number,
            value,
            client_seal,
            signed,
        },
        statement => Message::Share { statement, signed },
    }
}
