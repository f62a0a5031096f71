ghost use Rattle.std.specs.Prelude.{◌≡◌, ℕ, ◌-◌, ◌^◌, ◌<◌, IsTrue, IfOk, OnOk, OnErr, IsOkUnless};
ghost use Rattle.std.specs.Option.{option_copied};
ghost use Rattle.st_fields.specs.declared.error.WordsError.TheVariants as words;
ghost use Rattle.st_protocol.specs.World.{fresh_customer};
ghost use Rattle.st_client.specs.Rows.{entry_in};
ghost use Rattle.st_client.specs.Customers.{customer_of, answered_of, asks_next};
ghost use Rattle.st_client.specs.Replying.{awaits, awaited, reply_outcome, kept_or_answered, reply_customer};

use crate::replies::{Answer, Row, agreeing, entry_of, make_answer, with_entry};
use st_fields::{Bytes, Copied, WordsError};
use st_message::{Outcome, Reason};
use st_tables::Table;
use st_words::{Number, ServerId};
use std::alloc::Global;

/// A client: the time of its last update, and what it keeps of the Replies to it.
#[derive(Drop)]
pub struct Client {
    time: u32,
    waits: bool,
    replies: Option<Table<Row>>,
    result: Option<Answer>,
}

#[tactic(auto, unfolding(crate::specs::Customers::customer_of))]
impl Client {
    /// A client that has asked for nothing.
    #[tactic(auto, unfolding(crate::specs::Customers::customer_of, st_protocol::specs::World::fresh_customer))]
    pub fn new() -> Client
        ensures { customer_of result ≡ fresh_customer }
    {
        Client {
            time: 0,
            waits: false,
            replies: None,
            result: None,
        }
    }

    /// The time of its last update, 0 at first.
    pub fn time(&self) -> u32
        ensures { result ≡ (customer_of self.now).time }
    {
        self.time
    }

    /// The result of its last update, once f+1 servers of one site agree on it.
    pub fn result(&self) -> Option<&Answer>
        ensures { answered_of (option_copied result) ≡ (customer_of self.now).result }
    {
        self.result.as_ref()
    }

    /// Asks for the next update: it waits for that, and drops what it kept of the last.
    pub fn submit(&mut self)
        requires { (customer_of self.old).time < 2 ^ 32 - 1 }
        ensures { customer_of self.new ≡ asks_next (customer_of self.old) }
    {
        self.time += 1;
        self.waits = true;
        self.replies = None;
        self.result = None;
    }

    /// Takes a server's Reply to the update of a time, whose seal checks. The first Reply of each server
    /// to the awaited time is kept; with f+1 equal ones of a site the client has its result, and waits no
    /// more. Any other Reply is ignored: as seen where that server's Reply is kept, else as one of an old
    /// time.
    #[tactic(auto, unfolding(crate::specs::Customers::customer_of, crate::specs::Replying::reply_outcome, crate::specs::Replying::reply_customer))]
    pub fn take_reply(
        &mut self,
        alloc: Global,
        f: u8,
        server: ServerId,
        time: u32,
        number: Number,
        replied: &Bytes,
    ) -> Result<Outcome, WordsError>
        ensures outcome { IfOk result (λ outcome. outcome ≡ reply_outcome (customer_of self.old) server.site server.index time) }
        ensures customer { OnOk result (customer_of self.new ≡ reply_customer f (customer_of self.old) server.site server.index time (record { number = number.0; result = replied.now })) }
        ensures err { OnErr result (self.new ≡ self.old) }
        ensures memory { IsOkUnless result words.OutOfMemory }
    {
        if entry_of(self.row(server.site), server.index).is_some() {
            return Ok(Outcome::Ignored(Reason::Seen));
        }
        if !self.awaits(time) {
            let last = self.awaited();
            return Ok(Outcome::Ignored(Reason::OldTime { last }));
        }
        self.keep_reply(alloc, f, server, number, replied)?;
        Ok(Outcome::Did)
    }

    /// An equal client.
    pub fn copy(&self, alloc: Global) -> Result<Client, WordsError>
        ensures equal { IfOk result (λ copy. copy ≡ self.now) }
        ensures memory { IsOkUnless result words.OutOfMemory }
    {
        let replies = self.replies.copy(alloc)?;
        let result = self.result.copy(alloc)?;
        Ok(Client {
            time: self.time,
            waits: self.waits,
            replies,
            result,
        })
    }

    // Whether it waits for its update of this time.
    fn awaits(&self, time: u32) -> bool
        ensures { result ≡ awaits (customer_of self.now) time }
    {
        self.waits && time == self.time
    }

    // The time that is awaited, or 0.
    fn awaited(&self) -> u32
        ensures { result ≡ awaited (customer_of self.now) }
    {
        if self.waits { self.time } else { 0 }
    }

    // The kept answers of a site, if there are any.
    fn row(&self, site: u8) -> Option<&Row>
        ensures { option_copied result ≡ entry_in self.now.replies site }
    {
        entry_of(self.replies.as_ref(), site)
    }

    // Keeps a server's answer and, with f+1 equal ones of its site, has it as the result.
    #[tactic(auto, unfolding(crate::specs::Customers::customer_of, crate::specs::Replying::kept_or_answered))]
    fn keep_reply(
        &mut self,
        alloc: Global,
        f: u8,
        server: ServerId,
        number: Number,
        replied: &Bytes,
    ) -> Result<(), WordsError>
        ensures ok { OnOk result (customer_of self.new ≡ kept_or_answered f (customer_of self.old) server.site server.index (record { number = number.0; result = replied.now })) }
        ensures err { OnErr result (self.new ≡ self.old) }
        ensures memory { IsOkUnless result words.OutOfMemory }
    {
        let kept = make_answer(alloc, number, replied)?;
        let row = with_entry(alloc, self.row(server.site), server.index, kept)?;
        if agreeing(3 * f as usize + 1, &row, number, replied) > f as usize {
            let result = make_answer(alloc, number, replied)?;
            self.waits = false;
            self.replies = None;
            self.result = Some(result);
        } else {
            let rows = with_entry(alloc, self.replies.as_ref(), server.site, row)?;
            self.replies = Some(rows);
        }
        Ok(())
    }
}
