//! Why two correct servers never execute different values: laws over plain states, and no code.
//!
//! Each event of a server is a list of two kinds of mini-steps: it records one change, or hands out one
//! statement that it has recorded. Along every run of mini-steps the flat world inside each leader site, and
//! that of the sites, only grow and stay well. The laws of worlds (`st_refinement_laws`, `st_log_laws`) stand on these.
#![tactic(auto)]

ghost use Rattle.std.specs.Prelude.{◌≡◌, ℕ, ◌<◌, ◌≤◌, Bool, IsTrue, List, [], ◌∷◌};
ghost use Rattle.st_words.specs.declared.statement.Item.{Item};
ghost use Rattle.st_words.specs.declared.statement.Statement.{Statement};
ghost use Rattle.st_words.specs.declared.value.Value.{Value};
ghost use Rattle.st_message.specs.declared.change.Change.{Change};
ghost use Rattle.st_message.specs.declared.change.Change.TheVariants.{Made};
ghost use Rattle.st_counts.specs.Counts.{Has};
ghost use Rattle.st_registers.specs.Advances.{Advances};
ghost use Rattle.st_registers.specs.Steps.{IsRun};
ghost use Rattle.st_registers.specs.Tests.{Safe, IsChosen};
ghost use Rattle.st_agreement.specs.Certificates.{IsQuorum, IsOrdered};
ghost use Rattle.st_agreement.specs.Example.{three, moves};
ghost use Rattle.st_agreement.specs.ExampleMoves.{value, plays, after};
ghost use Rattle.st_agreement.specs.ExampleSite.{again, asks_local, executed_in, faults, global_reports, is_correct, item, local_reports, one_site, proposed, servers, site_moves, site_world, union_of_local, waiting};
ghost use Rattle.st_agreement.specs.MiniSteps.{HasExecuted, HasMaker, Invariant, MiniStep, first, with_record};
ghost use Rattle.st_agreement.specs.Reports.{Report, IsUnion, IsLocalBundle, IsGlobalBundle};
ghost use Rattle.st_agreement.specs.Rules.{ForcedByLocal, ForcedBySites, FreeOfLocal, HeldSites, MayStand};
ghost use Rattle.st_agreement.specs.Runs.{Reached, HasServers, sites_of, MayRecord, recordings};
ghost use Rattle.st_agreement.specs.Sites.{Sites, AreSites, leader};
ghost use Rattle.st_agreement.specs.Statements.{is_prepare, is_proposal};
ghost use Rattle.st_agreement.specs.Unions.{IsLocalUnion, IsGlobalUnion};
ghost use Rattle.st_agreement.specs.Worlds.{World, IsOwn, has_made, stands, inside, outside};

/// Where each site has `3 f + 1` servers and at most `f` faulty ones, the correct ones are sites as the
/// other laws want them.
pub fn enough_correct()
    ensures { (sites : ℕ) (faults : ℕ → ℕ) (servers : ℕ → List ℕ) (is_correct : ℕ → ℕ → Bool) →
        HasServers sites faults servers is_correct → AreSites (sites_of sites faults servers is_correct) }
{}

/// The invariant holds at first, and each mini-step keeps it; so it holds in each world that is reached.
pub fn invariant_kept()
    ensures start { (d : Sites) → Invariant d first }
    ensures step { (d : Sites) (old new : World) → AreSites d → Invariant d old →
        MiniStep d old new → Invariant d new }
    ensures reached { (d : Sites) (w : World) → AreSites d → Reached d w → Invariant d w }
{}

/// A value that may stand by a server's own records, as the unions that it holds tell, is safe inside its
/// site and among the sites.
pub fn prepared_values_are_safe()
    ensures { (d : Sites) (w : World) (k g l n : ℕ) (v : Value) → AreSites d → Invariant d w →
        Has k (d.correct (leader d g)) → MayStand d (leader d g) g l n v (w.records (leader d g) k) →
        Safe (inside d w g n) l v × Safe (outside d w n) g v }
{}

/// Each mini-step from a world that is reached lets both flat worlds advance, that inside each leader site and
/// that of the sites: nothing is lost, and all is well.
pub fn flat_refinement()
    ensures among_servers { (d : Sites) (old new : World) → AreSites d → Reached d old → MiniStep d old new →
        (g n : ℕ) → Advances (inside d old g n) (inside d new g n) }
    ensures among_sites { (d : Sites) (old new : World) → AreSites d → Reached d old → MiniStep d old new →
        (n : ℕ) → Advances (outside d old n) (outside d new n) }
{}

/// One voice: two Proposals that stand at a site for one view and number have one value, in whatever local
/// views.
pub fn one_voice()
    ensures { (d : Sites) (w : World) (g n l m : ℕ) (u v : Value) → AreSites d → Reached d w →
        IsTrue (stands d w (leader d g) (is_proposal (leader d g) g l n u)) →
        IsTrue (stands d w (leader d g) (is_proposal (leader d g) g m n v)) → u ≡ v }
{}

/// Agreement: in whatever worlds of a run two correct servers have executed a number, they have executed
/// one value. It is in the log of the flat world, and its client made it.
pub fn agreement()
    ensures same { (d : Sites) (worlds : List World) → AreSites d → IsRun (MiniStep d) first worlds →
        (a b : World) → Has a worlds → Has b worlds → (n : ℕ) (u v : Value) →
        HasExecuted d a n u → HasExecuted d b n v → u ≡ v }
    ensures logged { (d : Sites) (w : World) (n : ℕ) (v : Value) → AreSites d → Reached d w →
        HasExecuted d w n v → IsTrue ((outside d w n).logged v) }
    ensures own { (d : Sites) (w : World) (n : ℕ) (v : Value) → AreSites d → Reached d w →
        HasExecuted d w n v → IsOwn w v }
{}

/// The union of a bundle of reports, of which those of correct servers were made and each item stands, is a
/// union over the reporters' records.
pub fn unions_of_reports()
    ensures local { (d : Sites) (w : World) (s l greatest base : ℕ) (items : List Item) (reports : List Report) →
        Invariant d w → s < d.sites → IsLocalBundle d w s l reports → IsUnion reports base items →
        ((r : Report) → Has r reports → r.view ≤ greatest) → IsLocalUnion d w s l greatest base items }
    ensures global { (d : Sites) (w : World) (s view base : ℕ) (items : List Item) (reports : List Report) →
        Invariant d w → s < d.sites → IsGlobalBundle d w s view reports → IsUnion reports base items →
        IsGlobalUnion d w s view base items }
{}

/// What certificates show, where checked seals of correct servers are over what these handed out: a
/// statement that a quorum of a site signed stands there, and has a correct maker; a value that a majority of
/// sites accepted in one view is chosen.
pub fn certificates()
    ensures stand { (sites : ℕ) (faults : ℕ → ℕ) (servers : ℕ → List ℕ) (is_correct : ℕ → ℕ → Bool) (w : World)
        (s : ℕ) (test : Statement → Bool) (signers : List ℕ) →
        HasServers sites faults servers is_correct → s < sites →
        IsQuorum (faults s) (servers s) (is_correct s) (λ k. IsTrue (has_made w s test k)) signers →
        IsTrue (stands (sites_of sites faults servers is_correct) w s test) }
    ensures maker { (sites : ℕ) (faults : ℕ → ℕ) (servers : ℕ → List ℕ) (is_correct : ℕ → ℕ → Bool) (w : World)
        (s : ℕ) (t : Statement) (signers : List ℕ) →
        HasServers sites faults servers is_correct →
        Invariant (sites_of sites faults servers is_correct) w → s < sites →
        IsQuorum (faults s) (servers s) (is_correct s) (λ k. Has t (w.made s k)) signers →
        HasMaker (sites_of sites faults servers is_correct) w s t }
    ensures chosen { (d : Sites) (w : World) (n g : ℕ) (v : Value) (named : List ℕ) →
        IsOrdered d w n g v named → IsChosen (outside d w n) v }
{}

/// Changes that a stopped server was to record stay allowed while others go on, and can be recorded then.
pub fn pending_changes()
    ensures kept { (d : Sites) (old new : World) (s : ℕ) (records changes : List Change) → AreSites d → s < d.sites →
        MiniStep d old new → MayRecord d old s records changes → MayRecord d new s records changes }
    ensures recorded { (d : Sites) (w : World) (s k : ℕ) (changes : List Change) → AreSites d → s < d.sites →
        Has k (d.correct s) → MayRecord d w s (w.records s k) changes →
        IsRun (MiniStep d) w (recordings w s k changes) }
{}

/// The laws' premises can be met: a run in which three sites order an update through a change of view. The
/// first site's server proposes and accepts it in view 0, and it is the other two that accept it in view 1.
pub fn example_run()
    ensures sites { AreSites three }
    ensures run { IsRun (MiniStep three) first (plays first moves) }
    ensures last { Has (after first moves) (plays first moves) }
    ensures executed { HasExecuted three (after first moves) 1 value }
{}

/// They can be met where a server is faulty too: a run in which one site of four servers, of which one is faulty,
/// orders an update in a local view, and once more after a change of local view and a change of view. Of each
/// law this run meets what it asks for: of quorums with the faulty server's seal, bundles with its report, and
/// what the unions force.
pub fn example_run_with_faults()
    ensures servers { HasServers 1 faults servers is_correct }
    ensures sites { AreSites one_site }
    ensures run { IsRun (MiniStep one_site) first (plays first site_moves) }
    ensures last { Has site_world (plays first site_moves) }
    ensures invariant { Invariant one_site site_world }
    ensures executed { HasExecuted one_site site_world 1 value }
    ensures by_two { Has (executed_in 0) (site_world.records 0 0) × Has (executed_in 1) (site_world.records 0 1) }
    ensures voices { IsTrue (stands one_site site_world 0 (is_proposal 0 0 0 1 value)) ×
        IsTrue (stands one_site site_world 0 (is_proposal 0 0 1 1 value)) }
    ensures local_bundle { IsLocalBundle one_site site_world 0 1 local_reports }
    ensures local_union { IsUnion local_reports 0 (item 0 ∷ []) }
    ensures local_bounded { (r : Report) → Has r local_reports → r.view ≤ 0 }
    ensures global_bundle { IsGlobalBundle one_site site_world 0 1 global_reports }
    ensures global_union { IsUnion global_reports 0 (item 1 ∷ []) }
    ensures prepare_quorum { IsQuorum (faults 0) (servers 0) (is_correct 0)
        (λ k. IsTrue (has_made site_world 0 (is_prepare 0 0 0 1 value) k)) (0 ∷ 1 ∷ 3 ∷ []) }
    ensures union_quorum { IsQuorum (faults 0) (servers 0) (is_correct 0)
        (λ k. Has union_of_local (site_world.made 0 k)) (1 ∷ 2 ∷ 3 ∷ []) }
    ensures ordered { IsOrdered one_site site_world 1 0 value (0 ∷ []) }
    ensures forced { ForcedByLocal 0 0 1 1 again (site_world.records 0 1) }
    ensures free { FreeOfLocal 0 1 1 1 (site_world.records 0 1) }
    ensures forced_by_sites { (held : HeldSites one_site 1 1 (site_world.records 0 1)) × ForcedBySites 1 value held.unions }
    ensures waiting { MayRecord one_site proposed 0 (proposed.records 0 2) waiting }
    ensures goes_on { MiniStep one_site proposed (with_record proposed 0 1 (Made 0 asks_local)) }
{}
