ghost use Rattle.std.specs.Prelude.{◌≡◌, List, is_some};
ghost use Rattle.st_message.specs.declared.change.Change.{Change};
ghost use Rattle.st_message.specs.declared.change.Heard.{Heard};
ghost use Rattle.st_protocol.specs.Questions.{questions};
ghost use Rattle.st_protocol.specs.Step.{count_below};
ghost use Rattle.st_state.specs.ClientsView.{last_of, pending_of};
ghost use Rattle.st_server.specs.Serving.{seat_by, Stands};

use crate::server::Server;
use st_message::Entry;
use st_words::{ClientId, LocalView, View};

/// Where the server stands. These calls take no memory.
impl Server {
    /// The executed log, from number 1: each value with what running it gave.
    pub fn log(&self) -> &[Entry]
        ensures { (records : List (List Change)) (heard : List Heard) → Stands self.now records heard → result.now ≡ (questions (seat_by self.now) records heard).log.run.entries }
    {
        self.entries.as_slice()
    }

    /// How many numbers it executed.
    pub fn executed_count(&self) -> u32
        ensures { (records : List (List Change)) (heard : List Heard) → Stands self.now records heard → result ≡ (questions (seat_by self.now) records heard).here.executed }
    {
        self.live.here.executed
    }

    /// Its view, and its site's local view.
    pub fn views(&self) -> (View, LocalView)
        ensures view { (records : List (List Change)) (heard : List Heard) → Stands self.now records heard → result.0.0 ≡ (questions (seat_by self.now) records heard).here.view }
        ensures local { (records : List (List Change)) (heard : List Heard) → Stands self.now records heard → result.1.0 ≡ (questions (seat_by self.now) records heard).here.local }
    {
        (self.live.here.view, self.live.here.local)
    }

    /// The next leaf of its key.
    pub fn next_leaf(&self) -> u32
        ensures { (records : List (List Change)) (heard : List Heard) → Stands self.now records heard → result ≡ (questions (seat_by self.now) records heard).here.leaf }
    {
        self.live.here.leaf
    }

    /// How many clients have an update that waits to be ordered.
    #[tactic(auto, unfolding(st_protocol::specs::Step::count_below))]
    pub fn pending_count(&self) -> u32
        ensures { (records : List (List Change)) (heard : List Heard) → Stands self.now records heard → result ≡ count_below (λ c. is_some ((questions (seat_by self.now) records heard).pending c)) (seat_by self.now).clients }
    {
        let mut count: u32 = 0;
        for client in 0..self.live.pending.clients {
            if self.has_pending(ClientId(client)) {
                count += 1;
            }
        }
        count
    }

    // Whether an update of the client waits.
    fn has_pending(&self, client: ClientId) -> bool
        ensures { result ≡ is_some (pending_of (last_of self.now.live.clients) self.now.live.pending client.0) }
    {
        let last = self.live.clients.last(client);
        self.live.pending.get(client, last).is_some()
    }
}
