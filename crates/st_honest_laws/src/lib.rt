//! Seals that are named as a correct party's are over what this party handed out: each law is the contract of a function
//! that has nothing to do.
#![tactic(auto)]

ghost use Rattle.std.specs.Prelude.{◌≡◌, ℕ, Some, List, slice_get};
ghost use Rattle.std.specs.List.{AllByRecursion as Each};
ghost use Rattle.st_message.specs.declared.message.Message.{Message};
ghost use Rattle.st_message.specs.declared.change.Change.{Change};
ghost use Rattle.st_message.specs.declared.change.Heard.{Heard};
ghost use Rattle.st_schedule.specs.declared.line.Line.{Line};
ghost use Rattle.st_protocol.specs.Known.{seals_of};
ghost use Rattle.st_protocol.specs.Duty.{Clean};
ghost use Rattle.st_protocol.specs.World.{Deployment, empty};
ghost use Rattle.st_protocol.specs.Schedule.{steps};
ghost use Rattle.st_honest_laws.specs.Honest.{in_change, SealsAreRead, IsHonest};
ghost use Rattle.st_ranges.specs.Ranges.{MessageInRange};
ghost use Rattle.st_ranges.specs.Deployments.{DeploymentInRange, LineInRange};

/// Each seal that checks, and is named as of a correct server or a client, is over a statement that this party handed
/// out: in every message that was sent, in all that a server heard, and in every change that it recorded. So it is in
/// every deployment whose formats read what was sent, and in the world of any event lines.
pub fn worlds_are_honest<Wire>()
    ensures sent { (d : Deployment Wire) (all : List Line) (n : ℕ) (wire : Wire) (m : Message) → SealsAreRead d (λ m. Unit {0}) →
        slice_get (steps d empty all).sent n ≡ Some wire → d.formats.read wire ≡ Clean m → Each (IsHonest d (steps d empty all).made) (seals_of d.sites m) }
    ensures heard { (d : Deployment Wire) (all : List Line) (site index : ℕ) → SealsAreRead d (λ m. Unit {0}) →
        Each (λ (m : Heard). Each (IsHonest d (steps d empty all).made) (seals_of d.sites m.message)) ((steps d empty all).nodes site index).heard }
    ensures recorded { (d : Deployment Wire) (all : List Line) (site index : ℕ) → SealsAreRead d (λ m. Unit {0}) →
        Each (Each (λ (x : Change). Each (IsHonest d (steps d empty all).made) (in_change site x))) ((steps d empty all).nodes site index).bodies }
{}

/// In a deployment in range, and after lines in range, each seal that checks, and is named as of a correct server or a
/// client, is over a statement that this party handed out: in all that was sent, heard and recorded.
pub fn worlds_in_range_are_honest<Wire>()
    ensures sent { (d : Deployment Wire) (all : List Line) (n : ℕ) (wire : Wire) (m : Message) → DeploymentInRange d → Each (LineInRange d) all → SealsAreRead d MessageInRange →
        slice_get (steps d empty all).sent n ≡ Some wire → d.formats.read wire ≡ Clean m → Each (IsHonest d (steps d empty all).made) (seals_of d.sites m) }
    ensures heard { (d : Deployment Wire) (all : List Line) (site index : ℕ) → DeploymentInRange d → Each (LineInRange d) all → SealsAreRead d MessageInRange →
        Each (λ (m : Heard). Each (IsHonest d (steps d empty all).made) (seals_of d.sites m.message)) ((steps d empty all).nodes site index).heard }
    ensures recorded { (d : Deployment Wire) (all : List Line) (site index : ℕ) → DeploymentInRange d → Each (LineInRange d) all → SealsAreRead d MessageInRange →
        Each (Each (λ (x : Change). Each (IsHonest d (steps d empty all).made) (in_change site x))) ((steps d empty all).nodes site index).bodies }
{}

#[cfg(test)]
mod tests {
    use super::*;
    use st_fields::Bytes;
    use st_message::Message;
    use std::test::*;

    #[test]
    fn laws_ask_nothing(rt: HostRuntime) {
        worlds_are_honest::<Message>();
        worlds_are_honest::<Bytes>();
        worlds_in_range_are_honest::<Message>();
        worlds_in_range_are_honest::<Bytes>();
        assert!(rt; true);
    }
}
