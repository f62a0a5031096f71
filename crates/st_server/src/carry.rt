ghost use Rattle.std.specs.Prelude.{◌≡◌, ℕ, ◌+◌, ◌<◌, ◌≤◌, None, Some, Option, IsTrue, List, [], ◌∷◌, IfOk, OnOk, IfSome, IsOkUnless};
ghost use Rattle.st_fields.specs.declared.error.WordsError.TheVariants as words;
ghost use Rattle.st_words.specs.declared.ids.Number.{Number};
ghost use Rattle.st_message.specs.declared.change.Change.{Change};
ghost use Rattle.st_message.specs.declared.change.Heard.{Heard};
ghost use Rattle.st_message.specs.declared.change.Change.TheVariants as changes;
ghost use Rattle.st_message.specs.declared.message.Proof.{Proof};
ghost use Rattle.st_tables.specs.Entries.{entry};
ghost use Rattle.st_protocol.specs.State.{Answers, Sealing};
ghost use Rattle.st_protocol.specs.Growth.{here_after};
ghost use Rattle.st_protocol.specs.Duty.{Course, makes, carries_change, carries_changes, keeps_all, emits_all, carries, fills_up};
ghost use Rattle.st_state.specs.Placed.{Fits, here_after_all};
ghost use Rattle.st_protocol.specs.Forced.{forced_of};
ghost use Rattle.st_protocol.specs.Assigning.{fill};
ghost use Rattle.st_live.specs.LiveView.{place_here, IsLive};
ghost use Rattle.st_server.specs.Ready.{may_record, is_ready, are_ready, IsAlike};
ghost use Rattle.st_server.specs.Bounds.{IsSound, IsLowStep};
ghost use Rattle.st_server.specs.Replying as replying;
ghost use Rattle.st_server.specs.LiveReplies.{live_replies};
ghost use Rattle.st_server.specs.Replying.{reply_by, IsReplyAt};
ghost use Rattle.st_words.specs.declared.deployment.TheConstants.{LAST_NUMBER as most_number};
ghost use Rattle.st_sealing.specs.Sealing.{pen_by};
ghost use Rattle.st_server.specs.Draw.{Draws, IsDrawn};

use crate::draft::Draft;
use st_fields::{Bytes, Copied, WordsError};
use st_live::Live;
use st_message::{Change, Changes, Form, HeardList, Out, Outs, Proof, Scope, Sealing, Step};
use st_seal::Sealer;
use st_state::Forced;
use st_tables::Table;
use st_words::{ClientId, Number, SiteId, Statement, Update, Value};
use std::alloc::Global;

impl Draft {
    /// Makes a statement with the next leaf, and hands it out.
    pub fn make<S: Sealer>(
        &mut self,
        alloc: Global,
        sealer: &mut S,
        id: u64,
        replies: &Table<Sealing>,
        statement: Statement,
        form: Form,
        to: Scope,
    ) -> Result<(), WordsError>
        requires drawn { IsDrawn (entry replies.now) self.old }
        requires capacity { (S.pen sealer.old).capacity ≡ self.old.live.here.capacity }
        requires ready { IsTrue (may_record (place_here self.old.live) (changes.Made self.old.live.here.leaf statement)) }
        ensures draws { OnOk result ((way : Course) → Draws (entry replies.now) self.old way → Draws (entry replies.now) self.new (makes (pen_by (S.pen sealer.old) id) way statement form to)) }
        ensures drawn { OnOk result (IsDrawn (entry replies.now) self.new) }
        ensures here { OnOk result (place_here self.new.live ≡ here_after (changes.Made self.old.live.here.leaf statement) (place_here self.old.live)) }
        ensures pen { S.pen sealer.new ≡ S.pen sealer.old }
        ensures memory { IsOkUnless result words.OutOfMemory }
    {
        let leaf = self.live.here.leaf;
        let copy = statement.copy(alloc)?;
        self.record(
            alloc,
            Change::Made {
                leaf,
                statement: copy,
            },
        )?;
        self.emit(
            alloc,
            sealer,
            id,
            replies,
            Out::Make {
                statement,
                form,
                to,
            },
        )?;
        Ok(())
    }

    /// Records a change, and what follows from it: after an execution the Reply, where there is one.
    pub fn carry_change<S: Sealer>(
        &mut self,
        alloc: Global,
        sealer: &mut S,
        id: u64,
        replies: &Table<Sealing>,
        change: Change,
    ) -> Result<(), WordsError>
        requires drawn { IsDrawn (entry replies.now) self.old }
        requires capacity { (S.pen sealer.old).capacity ≡ self.old.live.here.capacity }
        requires ready { IsTrue (may_record (place_here self.old.live) change) }
        ensures draws { OnOk result ((way : Course) → Draws (entry replies.now) self.old way → Draws (entry replies.now) self.new (carries_change (pen_by (S.pen sealer.old) id) way change)) }
        ensures drawn { OnOk result (IsDrawn (entry replies.now) self.new) }
        ensures alike { OnOk result (IsAlike (here_after change (place_here self.old.live)) (place_here self.new.live)) }
        ensures ready { OnOk result ((rest : List Change) → IsTrue (is_ready (place_here self.old.live) (change ∷ rest)) → IsTrue (is_ready (place_here self.new.live) rest)) }
        ensures capacity { OnOk result (self.new.live.here.capacity ≡ self.old.live.here.capacity) }
        ensures pen { S.pen sealer.new ≡ S.pen sealer.old }
        ensures memory { IsOkUnless result words.OutOfMemory }
    {
        match change {
            Change::Executed { number, proof } => {
                self.execute(alloc, sealer, id, replies, number, proof)?
            }
            change => self.record(alloc, change)?,
        }
        Ok(())
    }

    fn execute<S: Sealer>(
        &mut self,
        alloc: Global,
        sealer: &mut S,
        id: u64,
        replies: &Table<Sealing>,
        number: Number,
        proof: Proof,
    ) -> Result<(), WordsError>
        requires drawn { IsDrawn (entry replies.now) self.old }
        requires capacity { (S.pen sealer.old).capacity ≡ self.old.live.here.capacity }
        requires ready { IsTrue (may_record (place_here self.old.live) (changes.Executed number proof)) }
        ensures draws { OnOk result ((way : Course) → Draws (entry replies.now) self.old way → Draws (entry replies.now) self.new (carries_change (pen_by (S.pen sealer.old) id) way (changes.Executed number proof))) }
        ensures drawn { OnOk result (IsDrawn (entry replies.now) self.new) }
        ensures alike { OnOk result (IsAlike (here_after (changes.Executed number proof) (place_here self.old.live)) (place_here self.new.live)) }
        ensures capacity { OnOk result (self.new.live.here.capacity ≡ self.old.live.here.capacity) }
        ensures pen { S.pen sealer.new ≡ S.pen sealer.old }
        ensures memory { IsOkUnless result words.OutOfMemory }
    {
        let reply = reply_to(alloc, &self.live, &proof.value)?;
        self.record(alloc, Change::Executed { number, proof })?;
        if let Some((client, statement)) = reply {
            self.make(
                alloc,
                sealer,
                id,
                replies,
                statement,
                Form::Reply,
                Scope::Client(client),
            )?;
        }
        Ok(())
    }

    /// Records changes in order, each with what follows from it.
    pub fn carry_changes<S: Sealer>(
        &mut self,
        alloc: Global,
        sealer: &mut S,
        id: u64,
        replies: &Table<Sealing>,
        changes: &Changes,
    ) -> Result<(), WordsError>
        requires drawn { IsDrawn (entry replies.now) self.old }
        requires capacity { (S.pen sealer.old).capacity ≡ self.old.live.here.capacity }
        requires ready { IsTrue (is_ready (place_here self.old.live) changes.now) }
        ensures draws { OnOk result ((way : Course) → Draws (entry replies.now) self.old way → Draws (entry replies.now) self.new (carries_changes (pen_by (S.pen sealer.old) id) way changes.now)) }
        ensures drawn { OnOk result (IsDrawn (entry replies.now) self.new) }
        ensures alike { OnOk result (IsAlike (here_after_all (place_here self.old.live) changes.now) (place_here self.new.live)) }
        ensures capacity { OnOk result (self.new.live.here.capacity ≡ self.old.live.here.capacity) }
        ensures pen { S.pen sealer.new ≡ S.pen sealer.old }
        ensures memory { IsOkUnless result words.OutOfMemory }
    {
        for change in changes.as_slice() {
            let change = change.copy(alloc)?;
            self.carry_change(alloc, sealer, id, replies, change)?;
        }
        Ok(())
    }

    /// Keeps things heard, in order.
    pub fn keep_all(&mut self, alloc: Global, heard: &HeardList) -> Result<(), WordsError>
        requires sound { IsSound self.old.live }
        requires ready { IsTrue (are_ready (place_here self.old.live) heard.now) }
        ensures draws { OnOk result ((made : ℕ → Option Sealing) (way : Course) → Draws made self.old way → Draws made self.new (keeps_all way heard.now)) }
        ensures drawn { OnOk result ((made : ℕ → Option Sealing) → IsDrawn made self.old → IsDrawn made self.new) }
        ensures here { OnOk result (place_here self.new.live ≡ place_here self.old.live) }
        ensures memory { IsOkUnless result words.OutOfMemory }
    {
        for message in heard.as_slice() {
            let message = message.copy(alloc)?;
            self.keep(alloc, message)?;
        }
        Ok(())
    }

    /// Hands out statements with their own seals, and messages, in order.
    pub fn emit_all<S: Sealer>(
        &mut self,
        alloc: Global,
        sealer: &mut S,
        id: u64,
        replies: &Table<Sealing>,
        outs: &Outs,
    ) -> Result<(), WordsError>
        requires drawn { IsDrawn (entry replies.now) self.old }
        requires capacity { (S.pen sealer.old).capacity ≡ self.old.live.here.capacity }
        ensures draws { OnOk result ((way : Course) → Draws (entry replies.now) self.old way → Draws (entry replies.now) self.new (emits_all (pen_by (S.pen sealer.old) id) way outs.now)) }
        ensures drawn { OnOk result (IsDrawn (entry replies.now) self.new) }
        ensures live { OnOk result (self.new.live ≡ self.old.live) }
        ensures pen { S.pen sealer.new ≡ S.pen sealer.old }
        ensures memory { IsOkUnless result words.OutOfMemory }
    {
        for out in outs.as_slice() {
            let out = out.copy(alloc)?;
            self.emit(alloc, sealer, id, replies, out)?;
        }
        Ok(())
    }

    /// Carries out a part's step: its changes with what follows from each, then what it keeps, then what
    /// goes out.
    pub fn carry<S: Sealer>(
        &mut self,
        alloc: Global,
        sealer: &mut S,
        id: u64,
        replies: &Table<Sealing>,
        step: &Step,
    ) -> Result<(), WordsError>
        requires drawn { IsDrawn (entry replies.now) self.old }
        requires capacity { (S.pen sealer.old).capacity ≡ self.old.live.here.capacity }
        requires fits { Fits (place_here self.old.live) step.now }
        requires low { IsLowStep step.now }
        ensures draws { OnOk result ((way : Course) → Draws (entry replies.now) self.old way → Draws (entry replies.now) self.new (carries (pen_by (S.pen sealer.old) id) way step.now)) }
        ensures drawn { OnOk result (IsDrawn (entry replies.now) self.new) }
        ensures capacity { OnOk result (self.new.live.here.capacity ≡ self.old.live.here.capacity) }
        ensures pen { S.pen sealer.new ≡ S.pen sealer.old }
        ensures memory { IsOkUnless result words.OutOfMemory }
    {
        self.carry_changes(alloc, sealer, id, replies, &step.changes)?;
        self.keep_all(alloc, &step.heard)?;
        self.emit_all(alloc, sealer, id, replies, &step.out)?;
        Ok(())
    }

    /// The fill, by what the state answers after the event's own changes.
    pub fn fill_up<S: Sealer>(
        &mut self,
        alloc: Global,
        sealer: &mut S,
        id: u64,
        replies: &Table<Sealing>,
    ) -> Result<(), WordsError>
        requires drawn { IsDrawn (entry replies.now) self.old }
        requires capacity { (S.pen sealer.old).capacity ≡ self.old.live.here.capacity }
        ensures draws { OnOk result ((way : Course) → Draws (entry replies.now) self.old way → Draws (entry replies.now) self.new (fills_up (pen_by (S.pen sealer.old) id) way)) }
        ensures drawn { OnOk result (IsDrawn (entry replies.now) self.new) }
        ensures pen { S.pen sealer.new ≡ S.pen sealer.old }
        ensures memory { IsOkUnless result words.OutOfMemory }
    {
        let step = filled(alloc, &self.live)?;
        self.carry(alloc, sealer, id, replies, &step)?;
        Ok(())
    }
}

// What the server fills.
fn filled(alloc: Global, live: &Live) -> Result<Step, WordsError>
    requires { IsSound live.now }
    ensures fill { IfOk result (λ step. (q : Answers) → IsLive live.now q → step ≡ fill q.here q.slots q.pending (forced_of q.here q.unions)) }
    ensures fits { IfOk result (Fits (place_here live.now)) }
    ensures low { IfOk result IsLowStep }
    ensures memory { IsOkUnless result words.OutOfMemory }
{
    let forced = Forced::without_unions(alloc, &live.here)?;
    let step = st_assign::fill(
        alloc,
        &live.here,
        &live.slots,
        &live.pending,
        &live.clients,
        &forced,
    )?;
    Ok(step)
}

// The Reply to the value's client, where the value runs next, this is the client's home and a leaf is left.
fn reply_to(
    alloc: Global,
    live: &Live,
    value: &Value,
) -> Result<Option<(ClientId, Statement)>, WordsError>
    requires sites { 0 < live.now.here.sites }
    requires executed { live.now.here.executed ≤ most_number }
    ensures reply { IfOk result (λ reply. (q : Answers) → IsLive live.now q → reply ≡ reply_by q value.now) }
    ensures placed { IfOk result (λ reply. IfSome reply (λ x. (number : Number) (proof : Proof) → IsTrue (may_record (here_after (changes.Executed number proof) (place_here live.now)) (changes.Made live.now.here.leaf x.1)))) }
    ensures memory { IsOkUnless result words.OutOfMemory }
{
    let Value::Update(update) = value else {
        return Ok(None);
    };
    if !is_replied(live, update) {
        return Ok(None);
    }
    let reply = next_reply(alloc, live, update)?;
    Ok(Some((update.client, reply)))
}

// Whether the update runs next, this is its client's home and a leaf is left.
fn is_replied(live: &Live, update: &Update) -> bool
    requires { 0 < live.now.here.sites }
    ensures { result ≡ live_replies live.now update.now }
{
    live.clients.last(update.client) < update.time
        && update.client.0 % live.here.sites == live.here.me.site
        && live.here.leaf < live.here.capacity
}

// The Reply to an update that runs next.
fn next_reply(alloc: Global, live: &Live, update: &Update) -> Result<Statement, WordsError>
    requires { live.now.here.executed ≤ most_number }
    ensures equal { IfOk result (λ reply. (q : Answers) → IsLive live.now q → reply ≡ replying.next_reply q update.now) }
    ensures form { IfOk result (λ reply. IsReplyAt reply (live.now.here.executed + 1)) }
    ensures memory { IsOkUnless result words.OutOfMemory }
{
    let outcome = live.ran.saturating_add(1).to_be_bytes();
    Ok(Statement::Reply {
        site: SiteId(live.here.me.site),
        client: update.client,
        time: update.time,
        number: Number(live.here.executed + 1),
        result: Bytes::from_slice(alloc, &outcome)?,
    })
}
