//! One leaf is of one statement, and what else a server's records have once: each law is the contract of a function that
//! has nothing to do. Each is of every deployment, and of the world of any event lines.
#![tactic(auto)]

ghost use Rattle.std.specs.Prelude.{◌≡◌, ℕ, true, Some, List, slice_get, take};
ghost use Rattle.st_words.specs.declared.statement.Statement.{Statement};
ghost use Rattle.st_message.specs.declared.change.Change.TheVariants.{Made};
ghost use Rattle.st_message.specs.declared.made.MadeSeal.{MadeSeal};
ghost use Rattle.st_schedule.specs.declared.line.Line.{Line};
ghost use Rattle.st_counts.specs.Counts.{Has};
ghost use Rattle.st_protocol.specs.Words.{server_at, site_of};
ghost use Rattle.st_protocol.specs.Keeping.{count_of};
ghost use Rattle.st_protocol.specs.Questions.{is_made};
ghost use Rattle.st_protocol.specs.World.{Deployment, empty, has_made};
ghost use Rattle.st_protocol.specs.Schedule.{steps};
ghost use Rattle.st_protocol.specs.Report.{answers_at};
ghost use Rattle.st_leaf_laws.specs.Records.{recorded_at, key_of, IsNotAbove};

/// Two seals that were handed out by one party with one leaf are the same.
pub fn one_leaf_is_of_one_statement<Wire>()
    ensures { (d : Deployment Wire) (all : List Line) (i j : ℕ) (x y : MadeSeal) → slice_get (steps d empty all).made i ≡ Some x → slice_get (steps d empty all).made j ≡ Some y →
        x.who ≡ y.who → x.leaf ≡ y.leaf → x ≡ y }
{}

/// What a server handed out it has recorded as made: each entry with its leaf (`entries`), and so each statement, with some
/// leaf (`statements`).
pub fn made_statements_are_recorded<Wire>()
    ensures entries { (d : Deployment Wire) (all : List Line) (x : MadeSeal) (site index : ℕ) → Has x (steps d empty all).made → x.who ≡ server_at site index →
        Has (Made x.leaf x.statement) (recorded_at (steps d empty all) site index) }
    ensures statements { (d : Deployment Wire) (all : List Line) (site index : ℕ) (s : Statement) → has_made (steps d empty all).made (server_at site index) s ≡ true →
        (leaf : ℕ) × Has (Made leaf s) (recorded_at (steps d empty all) site index) }
{}

/// A server makes one statement for a key: two that it recorded with the same key are one, with one leaf, at one place. So
/// it makes at most one Prepare and one Proposal for a view, a local view and a number, one Accept for a view and a number,
/// one report, one union and one request for a view of either kind, and one Reply for a number.
pub fn records_are_made_once<Wire>()
    ensures { (d : Deployment Wire) (all : List Line) (site index i j leaf other : ℕ) (s t : Statement) → slice_get (recorded_at (steps d empty all) site index) i ≡ Some (Made leaf s) →
        slice_get (recorded_at (steps d empty all) site index) j ≡ Some (Made other t) → key_of s ≡ key_of t → (i ≡ j) × (leaf ≡ other) × (s ≡ t) }
{}

/// No Prepare, Proposal, Accept, report or union that a server recorded as made is of a view or a local view above its own;
/// a request for a view is at most one above, and a Reply is of a number that it executed.
pub fn records_are_not_above<Wire>()
    ensures { (d : Deployment Wire) (all : List Line) (site index leaf : ℕ) (s : Statement) → Has (Made leaf s) (recorded_at (steps d empty all) site index) →
        IsNotAbove (answers_at d (steps d empty all) site index).here s }
{}

/// What a server recorded as made names its own site.
pub fn records_are_of_their_site<Wire>()
    ensures { (d : Deployment Wire) (all : List Line) (site index leaf : ℕ) (s : Statement) → Has (Made leaf s) (recorded_at (steps d empty all) site index) → site_of s ≡ site }
{}

/// The leaves of a server's records count up from 0: each is the number of statements that were made before.
pub fn leaves_count_up<Wire>()
    ensures { (d : Deployment Wire) (all : List Line) (site index i leaf : ℕ) (s : Statement) → slice_get (recorded_at (steps d empty all) site index) i ≡ Some (Made leaf s) →
        leaf ≡ count_of is_made (take i (recorded_at (steps d empty all) site index)) }
{}
