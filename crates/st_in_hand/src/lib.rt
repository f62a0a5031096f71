//! A number that is in hand is executed in the same event. Each law is the contract of a function that has
//! nothing to do.
#![tactic(auto)]

ghost use Rattle.std.specs.Prelude.{◌≡◌, ℕ, ◌+◌, ◌<◌, cond, nat_eq, Option, Some, None, List, [], ◌∷◌, ◌++◌};
ghost use Rattle.st_words.specs.declared.deployment.TheConstants.{WINDOW};
ghost use Rattle.st_message.specs.declared.message.Proof.{Proof};
ghost use Rattle.st_message.specs.declared.change.Change.{Change};
ghost use Rattle.st_message.specs.declared.change.Change.TheVariants.{Executed};
ghost use Rattle.st_message.specs.declared.change.Heard.{Heard};
ghost use Rattle.st_message.specs.declared.event.Plan.{Plan};
ghost use Rattle.st_schedule.specs.declared.line.Line.{Line};
ghost use Rattle.st_protocol.specs.State.{Seat, Answers};
ghost use Rattle.st_protocol.specs.Questions.{questions};
ghost use Rattle.st_protocol.specs.Duty.{Event, Reading, Pen, duty};
ghost use Rattle.st_protocol.specs.World.{Deployment, World, empty, plan_at};
ghost use Rattle.st_protocol.specs.Schedule.{steps};
ghost use Rattle.st_protocol.specs.Report.{answers_at};
ghost use Rattle.st_in_hand.specs.InHand.{in_hand_at, IsUpToDate, ExecutesFrom, ExecutesInHand, answers_hearing};

/// After any event lines no server has its next number in hand, nor a number beyond its window.
pub fn nothing_is_left_in_hand<Wire>()
    ensures next { (d : Deployment Wire) (all : List Line) (site index : ℕ) →
        let state : Answers = answers_at d (steps d empty all) site index in in_hand_at state (state.here.executed + 1) ≡ None }
    ensures beyond { (d : Deployment Wire) (all : List Line) (site index n : ℕ) →
        let state : Answers = answers_at d (steps d empty all) site index in state.here.executed + WINDOW < n → in_hand_at state n ≡ None }
{}

/// After any event lines a server's event executes exactly the numbers that are in hand once the event's message
/// was heard: from the next number on without a gap, each with the proof that is in hand.
pub fn executed_numbers_were_in_hand<Wire>()
    ensures { (d : Deployment Wire) (all : List Line) (site index : ℕ) (event : Event Wire) →
        let world : World Wire = steps d empty all in
        let plan : Plan = plan_at d world site index event in ExecutesInHand (answers_hearing d world site index plan) plan.changes }
{}

/// The same of any two lists, whatever a message is on its way and whatever seals: a server that heard nothing is
/// up to date, at its start and after a restart; where a server is up to date, an event executes exactly what is
/// in hand once its message was heard; and the server is up to date again.
pub fn servers_stay_up_to_date<Wire>()
    ensures first { (seat : Seat) (records : List (List Change)) → IsUpToDate (questions seat records []) }
    ensures executes { (read : Wire → Reading) (pen : Pen) (seat : Seat) (records : List (List Change)) (heard : List Heard) (event : Event Wire) →
        let plan : Plan = duty read pen seat records heard event in
        IsUpToDate (questions seat records heard) → ExecutesInHand (questions seat records (heard ++ plan.heard)) plan.changes }
    ensures again { (read : Wire → Reading) (pen : Pen) (seat : Seat) (records : List (List Change)) (heard : List Heard) (event : Event Wire) →
        let plan : Plan = duty read pen seat records heard event in
        IsUpToDate (questions seat records heard) → IsUpToDate (questions seat (records ++ plan.changes ∷ []) (heard ++ plan.heard)) }
{}

/// Numbers with proofs are executed by one list of changes alone: by two, where two have proofs and the next has none.
pub fn one_list_executes_what_has_proofs()
    ensures one { (proof : ℕ → Option Proof) (n : ℕ) (xs ys : List Change) → ExecutesFrom proof n xs → ExecutesFrom proof n ys → xs ≡ ys }
    ensures two { (p q : Proof) →
        let proof : (ℕ → Option Proof) = λ n. cond (nat_eq n 1) (Some p) (cond (nat_eq n 2) (Some q) None) in
        ExecutesFrom proof 1 (Executed (record { 0 = 1 }) p ∷ Executed (record { 0 = 2 }) q ∷ []) }
{}

#[cfg(test)]
mod tests {
    use super::*;
    use st_message::Message;
    use std::test::*;

    #[test]
    fn laws_ask_nothing(rt: HostRuntime) {
        nothing_is_left_in_hand::<Message>();
        executed_numbers_were_in_hand::<Message>();
        servers_stay_up_to_date::<Message>();
        one_list_executes_what_has_proofs();
        assert!(rt; true);
    }
}
