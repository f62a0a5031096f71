ghost use Rattle.std.specs.Prelude.{◌≡◌, ℕ, ◌+◌, ◌-◌, ◌^◌, ◌<◌, ◌≤◌, true, false, cond, List, ◌++◌, length, IsTrue, IfOk, OnOk, OnErr, IsOkUnless};
ghost use Rattle.st_fields.specs.declared.error.WordsError.TheVariants as words;
ghost use Rattle.st_message.specs.declared.change.Change.TheVariants as changes;
ghost use Rattle.st_message.specs.declared.message.Message.TheVariants as messages;
ghost use Rattle.st_protocol.specs.State.{Answers};
ghost use Rattle.st_protocol.specs.Growth.{after, hears};
ghost use Rattle.st_state.specs.HereView.{Serve, here_of};
ghost use Rattle.st_state.specs.Placed.{is_placed, is_taken, is_own_kind, is_kept_kind};
ghost use Rattle.st_state.specs.SlotsView.{heard_share};
ghost use Rattle.st_state.specs.OwnView.{own_certificate};
ghost use Rattle.st_protocol.specs.Questions.{last_after, runs_for, ops_of};
ghost use Rattle.st_state.specs.ClientsView.{last_of, place_of, heard_update};
ghost use Rattle.st_live.specs.Service.{kept_count};
ghost use Rattle.st_live.specs.LiveView.{place_here, IsLive, NotesMade};

use st_fields::{Bytes, WordsError};
use st_message::{Change, Heard, Here, Message, Proof};
use st_seal::{Quorum, Signed};
use st_state::{Clients, Hand, Own, Pending, Slots};
use st_words::{Number, Statement, Update, Value};
use std::alloc::Global;

/// The short state of a server: all that its duties look at at an event but the log, the proofs and the
/// Replies. It is bounded, and a copy shares what it holds.
#[derive(Drop)]
pub struct Live {
    pub here: Here,
    /// How many operations the service keeps.
    pub ran: u32,
    pub clients: Clients,
    pub pending: Pending,
    pub slots: Slots,
    pub hand: Hand,
    pub own: Own,
}

impl Live {
    /// Notes a change that is placed here.
    pub fn note(&mut self, alloc: Global, change: &Change) -> Result<(), WordsError>
        requires { IsTrue (is_placed (place_here self.old) change.now) }
        ensures ok { OnOk result ((q : Answers) → IsLive self.old q → IsLive self.new (after q change.now)) }
        ensures err { OnErr result (self.new ≡ self.old) }
        ensures memory { IsOkUnless result words.OutOfMemory }
    {
        match change {
            Change::Made { leaf, statement } => self.note_made(alloc, *leaf, statement)?,
            Change::Prepared { statement, quorum } => {
                self.note_prepared(alloc, statement, quorum)?
            }
            Change::Accepted { statement, quorum } => {
                self.note_accepted(alloc, statement, quorum)?
            }
            Change::Executed { number, proof } => self.note_executed(alloc, *number, proof)?,
            _ => {}
        }
        Ok(())
    }

    fn note_made(
        &mut self,
        alloc: Global,
        leaf: u32,
        statement: &Statement,
    ) -> Result<(), WordsError>
        requires { IsTrue (is_placed (place_here self.old) (changes.Made leaf statement.now)) }
        ensures ok { OnOk result ((q : Answers) → IsLive self.old q → IsLive self.new (after q (changes.Made leaf statement.now))) }
        ensures err { OnErr result (self.new ≡ self.old) }
        ensures memory { IsOkUnless result words.OutOfMemory }
    {
        let here = self.here;
        note_statement(alloc, &mut self.slots, &here, leaf, statement)?;
        self.here.leaf = next_leaf(here.leaf, here.capacity);
        Ok(())
    }

    fn note_prepared(
        &mut self,
        alloc: Global,
        statement: &Statement,
        quorum: &Quorum,
    ) -> Result<(), WordsError>
        requires { IsTrue (is_placed (place_here self.old) (changes.Prepared statement.now quorum.now)) }
        ensures ok { OnOk result ((q : Answers) → IsLive self.old q → IsLive self.new (after q (changes.Prepared statement.now quorum.now))) }
        ensures err { OnErr result (self.new ≡ self.old) }
        ensures memory { IsOkUnless result words.OutOfMemory }
    {
        let here = self.here;
        if let Statement::Prepare { number, .. } = statement {
            self.slots
                .note_prepared(alloc, &here, *number, statement, quorum)?;
        }
        Ok(())
    }

    fn note_accepted(
        &mut self,
        alloc: Global,
        statement: &Statement,
        quorum: &Quorum,
    ) -> Result<(), WordsError>
        requires { IsTrue (is_placed (place_here self.old) (changes.Accepted statement.now quorum.now)) }
        ensures ok { OnOk result ((q : Answers) → IsLive self.old q → IsLive self.new (after q (changes.Accepted statement.now quorum.now))) }
        ensures err { OnErr result (self.new ≡ self.old) }
        ensures memory { IsOkUnless result words.OutOfMemory }
    {
        let here = self.here;
        if let Statement::Proposal { number, .. } = statement {
            self.slots
                .note_accepted(alloc, &here, *number, statement, quorum)?;
        }
        Ok(())
    }

    fn note_executed(
        &mut self,
        alloc: Global,
        number: Number,
        proof: &Proof,
    ) -> Result<(), WordsError>
        requires { IsTrue (is_placed (place_here self.old) (changes.Executed number proof.now)) }
        ensures ok { OnOk result ((q : Answers) → IsLive self.old q → IsLive self.new (after q (changes.Executed number proof.now))) }
        ensures err { OnErr result (self.new ≡ self.old) }
        ensures memory { IsOkUnless result words.OutOfMemory }
    {
        let here = self.here;
        let (clients, ran) = self.ran_by(alloc, number, &proof.value)?;
        self.slots.move_up(&here);
        self.hand.move_up(&here);
        self.own.move_up(&here);
        self.clients = clients;
        self.ran = ran;
        self.here.executed += 1;
        Ok(())
    }

    // The client table once the value ran at this number, and how many operations the service then keeps.
    fn ran_by(
        &self,
        alloc: Global,
        number: Number,
        value: &Value,
    ) -> Result<(Clients, u32), WordsError>
        ensures last { IfOk result (λ x. (c : ℕ) → last_of x.0 c ≡ last_after (last_of self.now.clients) value.now c) }
        ensures place { IfOk result (λ x. (c : ℕ) → place_of x.0 c ≡ cond (runs_for (last_of self.now.clients) value.now c) number.0 (place_of self.now.clients c)) }
        ensures ran { IfOk result (λ x. (ran : List (List ℕ)) → self.now.ran ≡ kept_count (length ran) → x.1 ≡ kept_count (length (ran ++ ops_of (last_of self.now.clients) value.now))) }
        ensures memory { IsOkUnless result words.OutOfMemory }
    {
        let mut clients = self.clients.copy(alloc)?;
        if let Value::Update(update) = value {
            if clients.last(update.client) < update.time {
                clients.ran(alloc, update.client, update.time, number.0)?;
                return Ok((clients, self.ran.saturating_add(1)));
            }
        }
        Ok((clients, self.ran))
    }

    /// Keeps what is heard, where the tables take it.
    pub fn hear(&mut self, alloc: Global, heard: &Heard) -> Result<(), WordsError>
        requires { IsTrue (is_taken (place_here self.old) heard.now) }
        ensures ok { OnOk result ((q : Answers) → IsLive self.old q → IsLive self.new (hears q heard.now)) }
        ensures err { OnErr result (self.new ≡ self.old) }
        ensures memory { IsOkUnless result words.OutOfMemory }
    {
        if heard.own {
            self.hear_own(alloc, &heard.message)?;
        } else {
            self.hear_other(alloc, &heard.message)?;
        }
        Ok(())
    }

    fn hear_own(&mut self, alloc: Global, message: &Message) -> Result<(), WordsError>
        requires { IsTrue (is_own_kind (place_here self.old) message.now) }
        ensures ok { OnOk result ((q : Answers) → IsLive self.old q → IsLive self.new (hears q (record { own = true; message = message.now }))) }
        ensures err { OnErr result (self.new ≡ self.old) }
        ensures memory { IsOkUnless result words.OutOfMemory }
    {
        if let Message::Certificate { statement, quorum } = message {
            self.hear_completed(alloc, statement, quorum)?;
        }
        Ok(())
    }

    // A certificate that this server completed.
    fn hear_completed(
        &mut self,
        alloc: Global,
        statement: &Statement,
        quorum: &Quorum,
    ) -> Result<(), WordsError>
        requires { IsTrue (is_own_kind (place_here self.old) (messages.Certificate statement.now quorum.now)) }
        ensures ok { OnOk result ((q : Answers) → IsLive self.old q → IsLive self.new (hears q (own_certificate statement.now quorum.now))) }
        ensures err { OnErr result (self.new ≡ self.old) }
        ensures memory { IsOkUnless result words.OutOfMemory }
    {
        let here = self.here;
        match statement {
            Statement::Proposal { number, .. } => {
                self.own
                    .keep_proposal(alloc, &here, *number, statement, quorum)?
            }
            Statement::Accept { number, .. } => {
                self.own
                    .keep_accept(alloc, &here, *number, statement, quorum)?
            }
            _ => {}
        }
        Ok(())
    }

    fn hear_other(&mut self, alloc: Global, message: &Message) -> Result<(), WordsError>
        requires { IsTrue (is_kept_kind (place_here self.old) message.now) }
        ensures ok { OnOk result ((q : Answers) → IsLive self.old q → IsLive self.new (hears q (record { own = false; message = message.now }))) }
        ensures err { OnErr result (self.new ≡ self.old) }
        ensures memory { IsOkUnless result words.OutOfMemory }
    {
        match message {
            Message::Update { update, seal } => self.hear_update(alloc, update, seal)?,
            Message::Share { statement, signed } => self.hear_share(alloc, statement, signed)?,
            Message::Certificate { statement, quorum } => {
                self.hear_certificate(alloc, statement, quorum)?
            }
            _ => {}
        }
        Ok(())
    }

    fn hear_update(
        &mut self,
        alloc: Global,
        update: &Update,
        seal: &Bytes,
    ) -> Result<(), WordsError>
        ensures ok { OnOk result ((q : Answers) → IsLive self.old q → IsLive self.new (hears q (heard_update update.now seal.now))) }
        ensures err { OnErr result (self.new ≡ self.old) }
        ensures memory { IsOkUnless result words.OutOfMemory }
    {
        let last = self.clients.last(update.client);
        let mut pending = self.pending.copy(alloc)?;
        pending.keep(alloc, last, update, seal)?;
        self.pending = pending;
        Ok(())
    }

    fn hear_share(
        &mut self,
        alloc: Global,
        statement: &Statement,
        signed: &Signed,
    ) -> Result<(), WordsError>
        requires { IsTrue (is_kept_kind (place_here self.old) (messages.Share statement.now signed.now)) }
        ensures ok { OnOk result ((q : Answers) → IsLive self.old q → IsLive self.new (hears q (heard_share statement.now signed.now))) }
        ensures err { OnErr result (self.new ≡ self.old) }
        ensures memory { IsOkUnless result words.OutOfMemory }
    {
        let here = self.here;
        match statement {
            Statement::Prepare { number, .. } => {
                self.slots
                    .hear_prepare(alloc, &here, *number, statement, signed)?
            }
            Statement::Proposal { number, .. } => {
                self.slots
                    .hear_proposal(alloc, &here, *number, statement, signed)?
            }
            Statement::Accept { number, .. } => {
                self.slots
                    .hear_accept(alloc, &here, *number, statement, signed)?
            }
            _ => {}
        }
        Ok(())
    }

    fn hear_certificate(
        &mut self,
        alloc: Global,
        statement: &Statement,
        quorum: &Quorum,
    ) -> Result<(), WordsError>
        requires { IsTrue (is_kept_kind (place_here self.old) (messages.Certificate statement.now quorum.now)) }
        ensures ok { OnOk result ((q : Answers) → IsLive self.old q → IsLive self.new (hears q (record { own = false; message = messages.Certificate statement.now quorum.now }))) }
        ensures err { OnErr result (self.new ≡ self.old) }
        ensures memory { IsOkUnless result words.OutOfMemory }
    {
        let here = self.here;
        if let Statement::Accept {
            site,
            view,
            number,
            value,
        } = statement
        {
            self.hand
                .keep_accept(alloc, &here, *site, *view, *number, value, quorum)?;
        }
        Ok(())
    }

    /// An equal state.
    pub fn copy(&self, alloc: Global) -> Result<Live, WordsError>
        ensures equal { IfOk result (λ copy. copy ≡ self.now) }
        ensures memory { IsOkUnless result words.OutOfMemory }
    {
        Ok(Live {
            here: self.here,
            ran: self.ran,
            clients: self.clients.copy(alloc)?,
            pending: self.pending.copy(alloc)?,
            slots: self.slots.copy(alloc)?,
            hand: self.hand.copy(alloc)?,
            own: self.own.copy(alloc)?,
        })
    }
}

// Notes in the slots a statement that is made with the next leaf.
fn note_statement(
    alloc: Global,
    slots: &mut Slots,
    here: &Here,
    leaf: u32,
    statement: &Statement,
) -> Result<(), WordsError>
    requires { (clients : ℕ) (serve : Serve) → IsTrue (is_placed (here_of clients serve here.now) (changes.Made leaf statement.now)) }
    ensures ok { OnOk result ((clients : ℕ) (serve : Serve) → NotesMade (here_of clients serve here.now) slots.old slots.new leaf statement.now) }
    ensures err { OnErr result (slots.new ≡ slots.old) }
    ensures memory { IsOkUnless result words.OutOfMemory }
{
    match statement {
        Statement::Prepare { number, .. } => {
            slots.note_prepare(alloc, here, leaf, *number, statement)?
        }
        Statement::Proposal { number, .. } => {
            slots.note_proposal(alloc, here, leaf, *number, statement)?
        }
        Statement::Accept { number, .. } => {
            slots.note_accept(alloc, here, leaf, *number, statement)?
        }
        _ => {}
    }
    Ok(())
}

// The leaf after one that the key has.
fn next_leaf(leaf: u32, capacity: u32) -> u32
    requires { leaf < capacity }
    ensures { result ≡ leaf + 1 }
{
    leaf + 1
}
