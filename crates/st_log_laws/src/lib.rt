//! Correct servers' logs agree in every world of lines in range: each law is the contract of a function that has nothing
//! to do.
#![tactic(auto)]

ghost use Rattle.std.specs.Prelude.{◌≡◌, ℕ, false, IsTrue, List, ◌++◌};
ghost use Rattle.std.specs.List.{AllByRecursion as Each};
ghost use Rattle.st_words.specs.declared.value.Value.{Value};
ghost use Rattle.st_message.specs.declared.log.Entry.{Entry};
ghost use Rattle.st_schedule.specs.declared.line.Line.{Line};
ghost use Rattle.st_agreement.specs.MiniSteps.{HasExecuted};
ghost use Rattle.st_agreement.specs.Runs.{Reached};
ghost use Rattle.st_protocol.specs.World.{Deployment, empty};
ghost use Rattle.st_protocol.specs.Schedule.{steps};
ghost use Rattle.st_ranges.specs.Ranges.{MessageInRange};
ghost use Rattle.st_ranges.specs.Deployments.{DeploymentInRange, LineInRange};
ghost use Rattle.st_log_laws.specs.Handed.{comes_from_client};
ghost use Rattle.st_honest_laws.specs.Honest.{SealsAreRead};
ghost use Rattle.st_refinement_laws.specs.Lines.{AreHonestLines};
ghost use Rattle.st_answer_laws.specs.Plain.{sites_in, plain_of};
ghost use Rattle.st_answer_laws.specs.Fair.{HasFewFaulty};
ghost use Rattle.st_log_laws.specs.Fronts.{IsFront, Agree, log_at};

/// In a deployment in range, lines in range are honest: at each delivery to a server, also in a flow and where bytes come
/// from outside, all that is read is known and in range, and each seal in it that names a correct party is over a
/// statement that this party has handed out by then. So it is from the first line on (`all`), and from the world of any
/// such lines (`later`). No premise is on how many servers are faulty.
pub fn lines_in_range_are_honest<Wire>()
    ensures all { (d : Deployment Wire) (all : List Line) → DeploymentInRange d → SealsAreRead d MessageInRange → Each (LineInRange d) all → AreHonestLines d empty all }
    ensures later { (d : Deployment Wire) (all more : List Line) → DeploymentInRange d → SealsAreRead d MessageInRange → Each (LineInRange d) all → Each (LineInRange d) more →
        AreHonestLines d (steps d empty all) more }
{}

/// So in the world of any lines in range, whatever the at most f faulty servers of a site seal and whatever comes from
/// outside: its plain world is reached by mini-steps (`reached`), two correct servers that executed a number executed
/// one value (`same`), of two correct servers' logs, with values and outcomes, one is a front of the other (`fronts`),
/// and every update in a log was sealed and handed out by its client (`handed`).
pub fn worlds_in_range_agree<Wire>()
    ensures reached { (d : Deployment Wire) (all : List Line) → HasFewFaulty d → DeploymentInRange d → SealsAreRead d MessageInRange → Each (LineInRange d) all →
        Reached (sites_in d) (plain_of d (steps d empty all)) }
    ensures same { (d : Deployment Wire) (all : List Line) (n : ℕ) (u v : Value) → HasFewFaulty d → DeploymentInRange d → SealsAreRead d MessageInRange → Each (LineInRange d) all →
        HasExecuted (sites_in d) (plain_of d (steps d empty all)) n u → HasExecuted (sites_in d) (plain_of d (steps d empty all)) n v → u ≡ v }
    ensures fronts { (d : Deployment Wire) (all : List Line) (s i t j : ℕ) → HasFewFaulty d → DeploymentInRange d → SealsAreRead d MessageInRange → Each (LineInRange d) all →
        d.faulty s i ≡ false → d.faulty t j ≡ false → Agree (log_at d (steps d empty all) s i) (log_at d (steps d empty all) t j) }
    ensures handed { (d : Deployment Wire) (all : List Line) (s i : ℕ) → HasFewFaulty d → DeploymentInRange d → SealsAreRead d MessageInRange → Each (LineInRange d) all →
        Each (λ (entry : Entry). IsTrue (comes_from_client (steps d empty all).made entry.value)) (log_at d (steps d empty all) s i) }
{}

/// A server's log only grows, at any lines of any deployment (`grows`). So where the worlds of lines in range agree, they
/// do over time: the log of a correct server by now and that of one at any later world (`later`).
pub fn logs_agree_over_time<Wire>()
    ensures grows { (d : Deployment Wire) (all more : List Line) (s i : ℕ) → IsFront (log_at d (steps d empty all) s i) (log_at d (steps d empty (all ++ more)) s i) }
    ensures later { (d : Deployment Wire) (all more : List Line) (s i t j : ℕ) → HasFewFaulty d → DeploymentInRange d → SealsAreRead d MessageInRange → Each (LineInRange d) (all ++ more) →
        d.faulty s i ≡ false → d.faulty t j ≡ false → Agree (log_at d (steps d empty all) s i) (log_at d (steps d empty (all ++ more)) t j) }
{}

#[cfg(test)]
mod tests {
    use super::*;
    use st_fields::Bytes;
    use st_message::Message;
    use std::test::*;

    #[test]
    fn laws_ask_nothing(rt: HostRuntime) {
        lines_in_range_are_honest::<Message>();
        lines_in_range_are_honest::<Bytes>();
        worlds_in_range_agree::<Message>();
        worlds_in_range_agree::<Bytes>();
        logs_agree_over_time::<Message>();
        logs_agree_over_time::<Bytes>();
        assert!(rt; true);
    }
}
