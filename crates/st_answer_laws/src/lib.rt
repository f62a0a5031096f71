//! What a server's answers tell of its records, and which answers of its parts are mini-steps: each law is the contract
//! of a function that has nothing to do.
#![tactic(auto)]

ghost use Rattle.std.specs.Prelude.{ℕ, List};
ghost use Rattle.st_message.specs.declared.change.Change.{Change};
ghost use Rattle.st_message.specs.declared.change.Heard.{Heard};
ghost use Rattle.st_agreement.specs.Rules.{History};
ghost use Rattle.st_agreement.specs.Sites.{Sites};
ghost use Rattle.st_protocol.specs.State.{Seat};
ghost use Rattle.st_protocol.specs.Questions.{questions};
ghost use Rattle.st_answer_laws.specs.Plain.{newest};
ghost use Rattle.st_answer_laws.specs.Support.{Tells};

/// Where each record was allowed by those before it, what the records answer tells of them, whatever was heard: where the
/// server stands, what it made at each place, and which unions it holds.
pub fn answers_tell_of_records()
    ensures { (d : Sites) (s : ℕ) (seat : Seat) (bodies : List (List Change)) (heard : List Heard) → History d s (newest bodies) →
        Tells (questions seat bodies heard) (newest bodies) }
{}

#[cfg(test)]
mod tests {
    use super::*;
    use std::test::*;

    #[test]
    fn laws_ask_nothing(rt: HostRuntime) {
        answers_tell_of_records();
        assert!(rt; true);
    }
}
