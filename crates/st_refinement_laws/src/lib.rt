//! Each event of a correct server is a run of mini-steps, so that what two correct servers executed agrees, and both flat
//! worlds take flat steps: each law is the contract of a function that has nothing to do.
#![tactic(auto)]

ghost use Rattle.std.specs.Prelude.{◌≡◌, ℕ, ◌<◌, Bool, false, IsTrue, List, Some, slice_get};
ghost use Rattle.st_protocol.specs.State.{Answers};
ghost use Rattle.st_protocol.specs.Questions.{questions, executed_values};
ghost use Rattle.st_words.specs.declared.value.Value.{Value};
ghost use Rattle.st_message.specs.declared.message.Message.{Message};
ghost use Rattle.st_registers.specs.Advances.{Advances};
ghost use Rattle.st_agreement.specs.MiniSteps.{HasExecuted};
ghost use Rattle.st_agreement.specs.Runs.{Reached};
ghost use Rattle.st_agreement.specs.Sites.{leader};
ghost use Rattle.st_agreement.specs.Statements.{is_proposal};
ghost use Rattle.st_agreement.specs.Worlds.{inside, outside, stands};
ghost use Rattle.st_protocol.specs.Duty.{Event, of_kind, plan_by};
ghost use Rattle.st_protocol.specs.World.{Deployment, World, empty, with_node, seat_of, pen_at, comes_to, serves};
ghost use Rattle.st_schedule.specs.declared.line.Line.{Line};
ghost use Rattle.st_protocol.specs.Schedule.{restarted, steps, world_of};
ghost use Rattle.st_flat_laws.specs.Flat.{LeadsFlat};
ghost use Rattle.st_answer_laws.specs.Sound.{IsSound, IsHonestEvent};
ghost use Rattle.st_refinement_laws.specs.Lines.{AreHonestLines};
ghost use Rattle.st_answer_laws.specs.Plain.{sites_in, plain_of, Leads, Refines};
ghost use Rattle.st_answer_laws.specs.Fair.{HasFewFaulty};
ghost use Rattle.st_ranges.specs.Deployments.{KeepsRanges};

/// A world refines a run of mini-steps at first, and each event of a server keeps it so, of whatever kind, if what is
/// delivered is honest; and so does a restart. So does whatever the protocol's parts answer to a sound message of any kind
/// (`part`). Where a world refines a run, its plain world is reached by mini-steps.
pub fn events_are_mini_steps<Wire>()
    ensures first { (d : Deployment Wire) → HasFewFaulty d → KeepsRanges d → Refines d empty }
    ensures event { (d : Deployment Wire) (world : World Wire) (site index : ℕ) (event : Event Wire) → HasFewFaulty d → KeepsRanges d →
        IsHonestEvent d world event → Refines d world → Refines d (serves d world site index event).world }
    ensures part { (d : Deployment Wire) (world : World Wire) (site index : ℕ) (m : Message) → HasFewFaulty d → KeepsRanges d →
        d.faulty site index ≡ false → IsSound d world m → Refines d world →
        let now : Answers = questions (seat_of d site index) (world.nodes site index).bodies (world.nodes site index).heard in
        Refines d (comes_to d world site index (plan_by (pen_at d site index) now (of_kind now m))).world }
    ensures restart { (d : Deployment Wire) (world : World Wire) (site index : ℕ) (kept : Bool) → HasFewFaulty d → KeepsRanges d →
        d.faulty site index ≡ false → Refines d world → Refines d (with_node world site index (restarted d (world.nodes site index) kept)) }
    ensures reached { (d : Deployment Wire) (world : World Wire) → HasFewFaulty d → KeepsRanges d → Refines d world → Reached (sites_in d) (plain_of d world) }
{}

/// Two correct servers that executed a number executed one value, in a world that refines a run and in any to which a run of
/// mini-steps leads from it.
pub fn executed_values_agree<Wire>()
    ensures { (d : Deployment Wire) (early late : World Wire) (n : ℕ) (u v : Value) → HasFewFaulty d → KeepsRanges d → Refines d early →
        Leads d (plain_of d early) (plain_of d late) → HasExecuted (sites_in d) (plain_of d early) n u →
        HasExecuted (sites_in d) (plain_of d late) n v → u ≡ v }
{}

/// In every world of lines at each of which the servers' events are honest, the plain world is reached by mini-steps,
/// what stopped servers were to record still may be, and two correct servers that executed a number executed one value:
/// whatever the at most f faulty servers of a site seal, and whatever comes from outside.
pub fn worlds_agree<Wire>()
    ensures reached { (d : Deployment Wire) (all : List Line) → HasFewFaulty d → KeepsRanges d → AreHonestLines d empty all →
        Reached (sites_in d) (plain_of d (world_of d all)) }
    ensures refines { (d : Deployment Wire) (all : List Line) → HasFewFaulty d → KeepsRanges d → AreHonestLines d empty all → Refines d (world_of d all) }
    ensures same { (d : Deployment Wire) (all : List Line) (n : ℕ) (u v : Value) → HasFewFaulty d → KeepsRanges d → AreHonestLines d empty all →
        HasExecuted (sites_in d) (plain_of d (world_of d all)) n u →
        HasExecuted (sites_in d) (plain_of d (world_of d all)) n v → u ≡ v }
    ensures logs { (d : Deployment Wire) (all : List Line) (s k s2 k2 i : ℕ) (u v : Value) → HasFewFaulty d → KeepsRanges d → AreHonestLines d empty all →
        d.faulty s k ≡ false → d.faulty s2 k2 ≡ false →
        slice_get (executed_values ((world_of d all).nodes s k).bodies) i ≡ Some u →
        slice_get (executed_values ((world_of d all).nodes s2 k2).bodies) i ≡ Some v → u ≡ v }
{}

/// Lines from a world that refines a run lead its plain world on, and let both flat worlds advance, that of a leader site's
/// servers and that of the sites: nothing is lost, and all is well. So it is at each line, and from any world of lines
/// to any later one, in which what was executed is still so.
pub fn lines_advance<Wire>()
    ensures leads { (d : Deployment Wire) (world : World Wire) (all : List Line) → HasFewFaulty d → KeepsRanges d → Refines d world → AreHonestLines d world all →
        Leads d (plain_of d world) (plain_of d (steps d world all)) }
    ensures among_servers { (d : Deployment Wire) (world : World Wire) (all : List Line) (g n : ℕ) → HasFewFaulty d → KeepsRanges d → Refines d world →
        AreHonestLines d world all →
        Advances (inside (sites_in d) (plain_of d world) g n) (inside (sites_in d) (plain_of d (steps d world all)) g n) }
    ensures among_sites { (d : Deployment Wire) (world : World Wire) (all : List Line) (n : ℕ) → HasFewFaulty d → KeepsRanges d → Refines d world →
        AreHonestLines d world all →
        Advances (outside (sites_in d) (plain_of d world) n) (outside (sites_in d) (plain_of d (steps d world all)) n) }
    ensures same { (d : Deployment Wire) (world : World Wire) (all : List Line) (n : ℕ) (u v : Value) → HasFewFaulty d → KeepsRanges d → Refines d world →
        AreHonestLines d world all → HasExecuted (sites_in d) (plain_of d world) n u →
        HasExecuted (sites_in d) (plain_of d (steps d world all)) n v → u ≡ v }
{}

/// One voice: in a world that refines a run, two Proposals that stand at a site for one view and number have one value, in
/// whatever local views.
pub fn sites_have_one_voice<Wire>()
    ensures { (d : Deployment Wire) (world : World Wire) (g n l m : ℕ) (u v : Value) → HasFewFaulty d → KeepsRanges d → Refines d world →
        IsTrue (stands (sites_in d) (plain_of d world) (leader (sites_in d) g) (is_proposal (leader (sites_in d) g) g l n u)) →
        IsTrue (stands (sites_in d) (plain_of d world) (leader (sites_in d) g) (is_proposal (leader (sites_in d) g) g m n v)) → u ≡ v }
{}

/// So lines from a world that refines a run are flat steps in order: first all that is closed, in one step; then number by
/// number proposals by rising view, then acceptances, then orders. That is so inside each leader site, whose servers write
/// each register once, and among the sites.
pub fn lines_are_flat_steps<Wire>()
    ensures among_servers { (d : Deployment Wire) (world : World Wire) (all : List Line) (g : ℕ) → HasFewFaulty d → KeepsRanges d → Refines d world →
        AreHonestLines d world all →
        LeadsFlat (λ n. inside (sites_in d) (plain_of d world) g n) (λ n. inside (sites_in d) (plain_of d (steps d world all)) g n) }
    ensures among_sites { (d : Deployment Wire) (world : World Wire) (all : List Line) → HasFewFaulty d → KeepsRanges d → Refines d world →
        AreHonestLines d world all →
        LeadsFlat (λ n. outside (sites_in d) (plain_of d world) n) (λ n. outside (sites_in d) (plain_of d (steps d world all)) n) }
{}

#[cfg(test)]
mod tests {
    use super::*;
    use st_fields::Bytes;
    use st_message::Message;
    use std::test::*;

    #[test]
    fn laws_ask_nothing(rt: HostRuntime) {
        events_are_mini_steps::<Message>();
        events_are_mini_steps::<Bytes>();
        executed_values_agree::<Message>();
        executed_values_agree::<Bytes>();
        worlds_agree::<Message>();
        worlds_agree::<Bytes>();
        lines_advance::<Message>();
        lines_advance::<Bytes>();
        sites_have_one_voice::<Message>();
        sites_have_one_voice::<Bytes>();
        lines_are_flat_steps::<Message>();
        lines_are_flat_steps::<Bytes>();
        assert!(rt; true);
    }
}
