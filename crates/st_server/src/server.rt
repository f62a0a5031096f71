ghost use Rattle.std.specs.Prelude.{◌≡◌, ℕ, ◌+◌, List, [], ◌∷◌, ◌++◌, IfOk, OnOk, IsOkUnless};
ghost use Rattle.st_fields.specs.declared.error.WordsError.TheVariants as words;
ghost use Rattle.st_message.specs.declared.change.Change.{Change};
ghost use Rattle.st_message.specs.declared.change.Heard.{Heard};
ghost use Rattle.st_tables.specs.Entries.{entry};
ghost use Rattle.st_protocol.specs.Keeping.{or_else, first_of};
ghost use Rattle.st_protocol.specs.State.{Answers, at_reply};
ghost use Rattle.st_protocol.specs.Questions.{questions, sealing_in};
ghost use Rattle.st_protocol.specs.Duty.{course, did, ignored};
ghost use Rattle.st_state.specs.Placed.{Fits};
ghost use Rattle.st_live.specs.LiveView.{place_here};
ghost use Rattle.st_state.specs.HereView.{seat_of};
ghost use Rattle.st_live.specs.Service.{list_serve};
ghost use Rattle.st_server.specs.Bounds.{IsSeat, IsLowStep};
ghost use Rattle.st_server.specs.Fresh.{IsFresh};
ghost use Rattle.st_sealing.specs.Sealing.{pen_by};
ghost use Rattle.st_server.specs.Serving as serving;
ghost use Rattle.st_server.specs.Serving.{seat_by, StandsBy, Stands, IsServing, knows_sender, plan_by_message, Leads};

use crate::draft::Draft;
use crate::execution::note_entries;
use crate::parts::answer_to;
use st_fields::{Copied, Seq, Shared, WordsError};
use st_live::Live;
use st_message::{
    Change, Changes, Entries, Here, Message, Outcome, Plan, Reason, Refused, Sealing, Step,
};
use st_seal::Sealer;
use st_state::{Clients, Hand, Own, Pending, Slots};
use st_tables::Table;
use st_words::Statement;
use std::alloc::Global;

/// What an event comes to: what is to be done, and the short state once it is done; None where that
/// stays as it is.
#[derive(Drop)]
pub struct Planned {
    pub plan: Plan,
    pub next: Option<Live>,
}

/// One server: its short state, its executed log, and the Replies that it made, by number.
#[derive(Drop)]
pub struct Server {
    pub live: Live,
    pub entries: Entries,
    pub replies: Table<Sealing>,
}

impl Server {
    /// A server that recorded and heard nothing: one that stands at `here`, in view and local view 0 with
    /// nothing executed and no leaf used, in a deployment of so many clients.
    pub fn new(alloc: Global, here: Here, clients: u8) -> Result<Server, WordsError>
        requires fresh { IsFresh here }
        requires seat { IsSeat (seat_of clients list_serve here) }
        ensures stands { IfOk result (λ server. Stands server [] []) }
        ensures seat { IfOk result (λ server. seat_by server ≡ seat_of clients list_serve here) }
        ensures memory { IsOkUnless result words.OutOfMemory }
    {
        let live = Live {
            here,
            ran: 0,
            clients: Clients::new(alloc)?,
            pending: Pending::new(alloc, clients)?,
            slots: Slots::new(alloc)?,
            hand: Hand::new(alloc)?,
            own: Own::new(alloc)?,
        };
        Ok(Server {
            live,
            entries: Seq::new(alloc),
            replies: Table::new(alloc, 0)?,
        })
    }

    /// What is to be done where a message reaches the server: its duty. Nothing changes yet. `id` is the
    /// deployment's, over which statements are sealed.
    pub fn plan<S: Sealer>(
        &self,
        alloc: Global,
        sealer: &mut S,
        id: u64,
        message: &Message,
    ) -> Result<Planned, WordsError>
        requires serving { IsServing self.now }
        requires capacity { (S.pen sealer.old).capacity ≡ self.now.live.here.capacity }
        ensures plan { IfOk result (λ planned. (q : Answers) → StandsBy self.now q → planned.plan ≡ plan_by_message (seat_by self.now) (pen_by (S.pen sealer.old) id) q message.now) }
        ensures next { IfOk result (λ planned. (records : List (List Change)) (heard : List Heard) → Stands self.now records heard → Leads planned.next self.now (questions (seat_by self.now) (records ++ planned.plan.changes ∷ []) (heard ++ planned.plan.heard))) }
        ensures pen { S.pen sealer.new ≡ S.pen sealer.old }
        ensures memory { IsOkUnless result words.OutOfMemory }
    {
        if !self.knows_sender(message) {
            return Ok(ignoring(alloc, Reason::Unknown));
        }
        match answer_to(alloc, &self.live, &self.replies, message) {
            Ok(step) => {
                let planned = self.carried_out(alloc, sealer, id, &step)?;
                Ok(planned)
            }
            Err(Refused::Ignored(reason)) => Ok(ignoring(alloc, reason)),
            Err(Refused::OutOfMemory) => Err(WordsError::OutOfMemory),
        }
    }

    // Whether the server whose share a message is, or the site whose Accept certificate it is, is of the
    // deployment.
    fn knows_sender(&self, message: &Message) -> bool
        ensures { result ≡ knows_sender (seat_by self.now) message.now }
    {
        match message {
            Message::Share { signed, .. } => signed.index as u32 <= 3 * self.live.here.f as u32,
            Message::Certificate {
                statement: Statement::Accept { site, .. },
                ..
            } => site.0 < self.live.here.sites,
            _ => true,
        }
    }

    // A part's step carried out on a copy of the short state, and then the fill.
    fn carried_out<S: Sealer>(
        &self,
        alloc: Global,
        sealer: &mut S,
        id: u64,
        step: &Step,
    ) -> Result<Planned, WordsError>
        requires serving { IsServing self.now }
        requires capacity { (S.pen sealer.old).capacity ≡ self.now.live.here.capacity }
        requires fits { Fits (place_here self.now.live) step.now }
        requires low { IsLowStep step.now }
        ensures plan { IfOk result (λ planned. (q : Answers) → StandsBy self.now q → planned.plan ≡ did (course (pen_by (S.pen sealer.old) id) q step.now)) }
        ensures next { IfOk result (λ planned. (records : List (List Change)) (heard : List Heard) → Stands self.now records heard → Leads planned.next self.now (questions (seat_by self.now) (records ++ planned.plan.changes ∷ []) (heard ++ planned.plan.heard))) }
        ensures pen { S.pen sealer.new ≡ S.pen sealer.old }
        ensures memory { IsOkUnless result words.OutOfMemory }
    {
        let live = self.live.copy(alloc)?;
        let mut draft = Draft::begin(alloc, live);
        draft.carry(alloc, sealer, id, &self.replies, step)?;
        draft.fill_up(alloc, sealer, id, &self.replies)?;
        Ok(Planned {
            plan: Plan {
                changes: draft.changes,
                heard: draft.heard,
                outputs: draft.outputs,
                outcome: Outcome::Did,
            },
            next: Some(draft.live),
        })
    }

    /// Takes the changes of a plan that this server made, and the short state that it leads to. Where it
    /// is refused memory the server is of no use any more.
    pub fn settle(
        &mut self,
        alloc: Global,
        changes: &Changes,
        next: Option<Live>,
    ) -> Result<(), WordsError>
        ensures stands { OnOk result ((records : List (List Change)) (heard others : List Heard) → Stands self.old records heard → Leads next self.old (questions (seat_by self.old) (records ++ changes.now ∷ []) (heard ++ others)) → Stands self.new (records ++ changes.now ∷ []) (heard ++ others)) }
        ensures seat { OnOk result ((records : List (List Change)) (heard : List Heard) → Leads next self.old (questions (seat_by self.old) records heard) → seat_by self.new ≡ seat_by self.old) }
        ensures memory { IsOkUnless result words.OutOfMemory }
    {
        note_replies(alloc, &mut self.replies, changes)?;
        // (where the short state stays nothing is executed)
        if let Some(next) = next {
            note_entries(alloc, &mut self.live, &mut self.entries, changes)?;
            self.live = next;
        }
        Ok(())
    }
}

// Nothing is done.
fn ignoring(alloc: Global, reason: Reason) -> Planned
    ensures plan { result.plan ≡ ignored reason }
    ensures next { result.next ≡ None }
{
    Planned {
        plan: Plan {
            changes: Seq::new(alloc),
            heard: Seq::new(alloc),
            outputs: Seq::new(alloc),
            outcome: Outcome::Ignored(reason),
        },
        next: None,
    }
}

// Notes the Replies that the changes make; of two of a number the first stays.
fn note_replies(
    alloc: Global,
    replies: &mut Table<Sealing>,
    changes: &Changes,
) -> Result<(), WordsError>
    ensures ok { OnOk result ((n : ℕ) → entry replies.new n ≡ or_else (entry replies.old n) (first_of (sealing_in (at_reply n)) changes.now)) }
    ensures memory { IsOkUnless result words.OutOfMemory }
{
    for change in changes.as_slice() {
        note_reply(alloc, replies, change)?;
    }
    Ok(())
}

fn note_reply(
    alloc: Global,
    replies: &mut Table<Sealing>,
    change: &Change,
) -> Result<(), WordsError>
    ensures ok { OnOk result ((n : ℕ) → entry replies.new n ≡ or_else (entry replies.old n) (sealing_in (at_reply n) change.now)) }
    ensures memory { IsOkUnless result words.OutOfMemory }
{
    let Change::Made { leaf, statement } = change else {
        return Ok(());
    };
    let Statement::Reply { number, .. } = statement else {
        return Ok(());
    };
    let number = number.0 as usize;
    if replies.get(number).is_some() {
        return Ok(());
    }
    let statement = statement.copy(alloc)?;
    let sealing = Shared::new(
        alloc,
        Sealing {
            leaf: *leaf,
            statement,
        },
    )?;
    replies.put(number, Some(sealing))?;
    Ok(())
}
