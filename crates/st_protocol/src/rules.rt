ghost use Rattle.std.specs.Prelude.{◌≡◌, ◌≢◌, ℕ, ◌+◌, ◌*◌, ◌<◌, ◌≤◌, Bool, true, false, Option, Some, None, List, ◌∷◌, ◌++◌, length};
ghost use Rattle.std.specs.List.{Contains};
ghost use Rattle.st_words.specs.declared.deployment.TheConstants.{WINDOW};
ghost use Rattle.st_words.specs.declared.value.Value.{Value};
ghost use Rattle.st_words.specs.declared.statement.Item.{Item};
ghost use Rattle.st_words.specs.declared.statement.Statement.{Statement};
ghost use Rattle.st_seal.specs.declared.quorum.Signed.{Signed};
ghost use Rattle.st_message.specs.declared.message.ReportBody.{ReportBody};
ghost use Rattle.st_message.specs.declared.change.Change.{Change};
ghost use Rattle.st_message.specs.declared.step.Step.{Step};
ghost use Rattle.st_protocol.specs.Words.{Bytes, index_of};
ghost use Rattle.st_protocol.specs.State.{AtPrepare, Here, Backed, Share, Slots, Pended};
ghost use Rattle.st_protocol.specs.Step.{Steps, idle, majority, completes, completed};
ghost use Rattle.st_protocol.specs.Forced.{Forced, waits, item_at, item_view, item_local};
ghost use Rattle.st_protocol.specs.Assigning.{on_assign, fill};
ghost use Rattle.st_protocol.specs.Collecting.{item_of, items_in, report_statement, Found, best_found, union_items};
ghost use Rattle.st_protocol.specs.World.{Deployment, Node};
ghost use Rattle.st_protocol.specs.Schedule.{restarted};

/// What completes a slot is a quorum of its site, 2f+1 seals or more (`quorum`), and a majority of sites is more than
/// half of them (`majority`).
pub fn quorums_and_majorities_are_enough()
    ensures quorum { (here : Here) (shares : ℕ → Option Share) (s : Statement) (signed : Signed) → completes here shares s signed ≡ true →
        2 * here.seat.f + 1 ≤ length (completed here shares s signed) }
    ensures majority { (here : Here) → here.seat.sites < 2 * majority here }
{}

/// While unions are missing a server makes no Prepare: an assignment whose slot is free is refused (`assigned`), and the
/// representative fills nothing (`filled`).
pub fn prepares_wait_for_unions()
    ensures assigned { (here : Here) (slots : Slots) (forced : Forced) (view local n : ℕ) (value : Value) (client_seal : Bytes) (signed : Signed) (step : Step) →
        on_assign here slots forced view local n value client_seal signed ≡ Steps step → slots.made (AtPrepare view local n) ≡ None → waits forced ≡ false }
    ensures filled { (here : Here) (slots : Slots) (pending : ℕ → Option Pended) (forced : Forced) → waits forced ≡ true → fill here slots pending forced ≡ idle }
{}

/// A server's report leaves nothing out: it has an item for every number of its window at which it prepared a value, or
/// accepted one where the report is of a view.
pub fn reports_leave_nothing_out()
    ensures prepared { (here : Here) (slots : Slots) (k : ℕ) (b : Backed) → k < WINDOW → slots.prepared (here.executed + 1 + k) ≡ Some b →
        Contains (items_in (report_statement here slots false)) (item_of (here.executed + 1 + k) b) }
    ensures accepted { (here : Here) (slots : Slots) (k : ℕ) (b : Backed) → k < WINDOW → slots.accepted (here.executed + 1 + k) ≡ Some b →
        Contains (items_in (report_statement here slots true)) (item_of (here.executed + 1 + k) b) }
{}

/// A union heeds no order of its reports: two neighbours of different indices may change places, and the items stay as
/// they are.
pub fn unions_heed_no_order()
    ensures { (before after : List ReportBody) (a b : ReportBody) → index_of a.statement ≢ index_of b.statement →
        union_items (before ++ a ∷ b ∷ after) ≡ union_items (before ++ b ∷ a ∷ after) }
{}

/// Of reports whose items at a number are as high as what the union takes, none is of a lower index.
pub fn unions_take_the_lowest_index()
    ensures { (before after : List ReportBody) (r : ReportBody) (n : ℕ) (i : Item) (found : Found) → item_at n (items_in r.statement) ≡ Some i →
        best_found n (before ++ r ∷ after) ≡ Some found → item_view found.item ≡ item_view i → item_local found.item ≡ item_local i → found.index ≤ index_of r.statement }
{}

/// A restart keeps every record, kept or lost: what was recorded stays in front of what a failed event may have left.
pub fn restarts_keep_records<Wire>()
    ensures { (d : Deployment Wire) (node : Node) (kept : Bool) → (more : List (List Change)) × ((restarted d node kept).bodies ≡ node.bodies ++ more) }
{}
