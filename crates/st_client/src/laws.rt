ghost use Rattle.std.specs.Prelude.{◌≡◌, ℕ, ◌+◌, cond, nat_le, length};
ghost use Rattle.st_words.specs.declared.statement.Statement.TheVariants.{ClientUpdate};
ghost use Rattle.st_message.specs.declared.message.Message.TheVariants as messages;
ghost use Rattle.st_message.specs.declared.event.Scope.TheVariants as scopes;
ghost use Rattle.st_schedule.specs.declared.done.Done.TheVariants as done;
ghost use Rattle.st_protocol.specs.Words.{Bytes, client_at, an_update};
ghost use Rattle.st_protocol.specs.World.{Deployment, Answered, Customer, World, with_customer, hands, stepped, dests_of, sends_to, on_checked_reply};
ghost use Rattle.st_protocol.specs.Schedule.{submits};
ghost use Rattle.st_client.specs.Customers.{asks_next};
ghost use Rattle.st_client.specs.Replying.{takes, reply_outcome, reply_customer};

/// In a world a Reply whose seals check comes to what it comes to at the client, which alone is changed,
/// where the Reply is taken. Of the world's own client it can as well be said without a test, since a
/// client that is put in its own place changes nothing.
#[tactic(auto, using(crate::proofs::ReplyLaws::checked_reply, crate::proofs::ReplyLaws::own_checked_reply))]
pub fn replies_in_a_world<Wire>()
    ensures each { (d : Deployment Wire) (world : World Wire) (client : ℕ) (customer : Customer) (site index time : ℕ) (a : Answered) →
        on_checked_reply d world client customer site index time a
        ≡ stepped
        (cond (takes customer site index time) (with_customer world client (reply_customer d.f customer site index time a)) world)
        (done.Outcome (reply_outcome customer site index time)) }
    ensures own { (d : Deployment Wire) (world : World Wire) (client site index time : ℕ) (a : Answered) →
        on_checked_reply d world client (world.customers client) site index time a
        ≡ stepped
        (with_customer world client (reply_customer d.f (world.customers client) site index time a))
        (done.Outcome (reply_outcome (world.customers client) site index time)) }
{}

/// In a world a client that submits, while it has seals left, is the client that asks for its next update.
#[tactic(auto, unfolding(st_protocol::specs::Schedule::submits))]
pub fn submissions_in_a_world<Wire>()
    ensures { (d : Deployment Wire) (world : World Wire) (client : ℕ) (op : Bytes) →
        let used = (world.customers client).time in
        let update = an_update client (used + 1) op in
        submits d world client op
        ≡ cond (nat_le d.capacity used) (stepped world (done.SealsSpent used))
        (stepped
        (sends_to d
        (hands (with_customer world client (asks_next (world.customers client))) (client_at client) used (ClientUpdate update))
        (d.formats.encode (messages.Update update (d.formats.seal (client_at client) used (ClientUpdate update))))
        (dests_of d scopes.All))
        (done.Sent (length world.sent))) }
{}
