//! The frame of invariants: what each event of a world keeps, all event lines keep. The law for tests is the contract of a
//! function that has nothing to do; `proofs/` has it for any predicate, and the walks along an event that it stands on.
#![tactic(auto)]

ghost use Rattle.std.specs.Prelude.{◌≡◌, Bool, true, List};
ghost use Rattle.std.specs.List.{AllByRecursion as Each};
ghost use Rattle.st_schedule.specs.declared.line.Line.{Line};
ghost use Rattle.st_protocol.specs.World.{Deployment, World};
ghost use Rattle.st_protocol.specs.Schedule.{steps};
ghost use Rattle.st_frame_laws.specs.Events.{IsKeptByEvents};

/// A test of worlds that each event keeps, where the delivered message passes a second test and the line a third, holds of
/// the world of all such lines.
pub fn lines_keep_what_events_keep<Wire>()
    ensures { (d : Deployment Wire) (holds : World Wire → Bool) (may_be_delivered : World Wire → Wire → Bool) (may_come : Line → Bool) (world : World Wire) (all : List Line) →
        IsKeptByEvents d (λ w. holds w ≡ true) (λ w wire. may_be_delivered w wire ≡ true) (λ line. may_come line ≡ true) →
        Each (λ line. may_come line ≡ true) all → holds world ≡ true → holds (steps d world all) ≡ true }
{}
