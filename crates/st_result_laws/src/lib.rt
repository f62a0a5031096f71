//! A client's result is that of its update in correct servers' logs: the law is the contract of a function that has
//! nothing to do.
#![tactic(auto)]

ghost use Rattle.std.specs.Prelude.{◌≡◌, ℕ, false, Some, List, slice_get};
ghost use Rattle.std.specs.List.{AllByRecursion as Each};
ghost use Rattle.st_message.specs.declared.log.Entry.{Entry};
ghost use Rattle.st_schedule.specs.declared.line.Line.{Line};
ghost use Rattle.st_protocol.specs.World.{Deployment, Answered, empty};
ghost use Rattle.st_protocol.specs.Schedule.{steps};
ghost use Rattle.st_ranges.specs.Ranges.{MessageInRange};
ghost use Rattle.st_ranges.specs.Deployments.{DeploymentInRange, LineInRange};
ghost use Rattle.st_honest_laws.specs.Honest.{SealsAreRead};
ghost use Rattle.st_answer_laws.specs.Fair.{HasFewFaulty};
ghost use Rattle.st_log_laws.specs.Fronts.{log_at};
ghost use Rattle.st_result_laws.specs.Results.{entry_of, IsAnsweredBy};

/// In a deployment in range, and after lines in range, whatever the at most f faulty servers of a site seal and whatever
/// comes from outside: where a client has a result, a correct server's log has, at the number of the result, the
/// client's update of the time of its last update, which ran and gave that result (`stands`). And every correct server
/// whose log has an entry at that number has that very entry (`one`).
pub fn results_stand_in_logs<Wire>()
    ensures stands { (d : Deployment Wire) (all : List Line) (client : ℕ) (a : Answered) → HasFewFaulty d → DeploymentInRange d → SealsAreRead d MessageInRange → Each (LineInRange d) all →
        ((steps d empty all).customers client).result ≡ Some a → IsAnsweredBy d (steps d empty all) client a }
    ensures one { (d : Deployment Wire) (all : List Line) (client : ℕ) (a : Answered) (s i : ℕ) (entry : Entry) → HasFewFaulty d → DeploymentInRange d → SealsAreRead d MessageInRange → Each (LineInRange d) all →
        (by : IsAnsweredBy d (steps d empty all) client a) → d.faulty s i ≡ false → slice_get (log_at d (steps d empty all) s i) by.ran.before ≡ Some entry → entry ≡ entry_of by.ran.update a }
{}

#[cfg(test)]
mod tests {
    use super::*;
    use st_fields::Bytes;
    use st_message::Message;
    use std::test::*;

    #[test]
    fn laws_ask_nothing(rt: HostRuntime) {
        results_stand_in_logs::<Message>();
        results_stand_in_logs::<Bytes>();
        assert!(rt; true);
    }
}
