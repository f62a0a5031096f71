//! Laws of a world and its event lines: each law is the contract of a function that has nothing to do.
#![tactic(auto)]

ghost use Rattle.std.specs.Prelude.{◌≡◌, ℕ, ◌+◌, ◌*◌, ◌<◌, ◌≤◌, true, false, cond, nat_le, Some, None, List, [], ◌∷◌, ◌++◌, length, map, slice_get};
ghost use Rattle.std.specs.List.{All};
ghost use Rattle.st_message.specs.declared.event.Output.{Output};
ghost use Rattle.st_message.specs.declared.event.Scope.{Scope};
ghost use Rattle.st_message.specs.declared.change.Change.{Change};
ghost use Rattle.st_schedule.specs.declared.limits.TheConstants.{MOST_MESSAGES};
ghost use Rattle.st_schedule.specs.declared.line.Dest.{Dest};
ghost use Rattle.st_schedule.specs.declared.line.Line.{Line};
ghost use Rattle.st_schedule.specs.declared.done.Done.TheVariants as done;
ghost use Rattle.st_protocol.specs.Words.{Bytes};
ghost use Rattle.st_protocol.specs.Duty.{Deliver};
ghost use Rattle.st_protocol.specs.World.{Deployment, Fault, TooMany, Pair, World, empty, dests_of, stepped, with_node, with_waiting, settled, sent_size, send_fault, sends_to, hands_out, plan_at, serves, delivers};
ghost use Rattle.st_protocol.specs.Schedule.{sets_no_stop, Flowing, counts, flows, submits, goes, step, steps};
ghost use Rattle.st_protocol.specs.Report.{came_from};
ghost use Rattle.st_protocol.specs.Plain.{ArePlain};

/// What ended a world stays, whatever comes after.
pub fn ended_worlds_stay_ended<Wire>()
    ensures sent { (d : Deployment Wire) (f : Fault) (world : World Wire) (wire : Wire) (to : List Dest) →
        world.ended ≡ Some f → (sends_to d world wire to).ended ≡ Some f }
    ensures handed { (d : Deployment Wire) (f : Fault) (site index : ℕ) (world : World Wire) (outputs : List Output) →
        world.ended ≡ Some f → (hands_out d site index world outputs).ended ≡ Some f }
    ensures delivered { (d : Deployment Wire) (f : Fault) (world : World Wire) (to : Dest) (wire : Wire) →
        world.ended ≡ Some f → (delivers d world to wire).world.ended ≡ Some f }
    ensures flowed { (d : Deployment Wire) (f : Fault) (k : ℕ) (x : Flowing Wire) →
        x.world.ended ≡ Some f → (flows d k x).world.ended ≡ Some f }
    ensures gone { (d : Deployment Wire) (f : Fault) (world : World Wire) (line : Line) →
        world.ended ≡ Some f → (goes d world line).world.ended ≡ Some f }
    ensures stepped { (d : Deployment Wire) (f : Fault) (world : World Wire) (line : Line) →
        world.ended ≡ Some f → (step d world line).world.ended ≡ Some f }
    ensures all_stepped { (d : Deployment Wire) (f : Fault) (world : World Wire) (all : List Line) →
        world.ended ≡ Some f → (steps d world all).ended ≡ Some f }
{}

/// Where no body is written, every server goes on running, with no stop set and an empty journal,
/// through deliveries, flows, clients' updates and all lines that set no stop.
pub fn plain_worlds_stay_plain<Wire>()
    ensures delivered { (d : Deployment Wire) (world : World Wire) (to : Dest) (wire : Wire) →
        ((changes : List Change) → d.formats.body_size changes ≡ 0) → ArePlain world → ArePlain (delivers d world to wire).world }
    ensures flowed { (d : Deployment Wire) (k : ℕ) (x : Flowing Wire) →
        ((changes : List Change) → d.formats.body_size changes ≡ 0) → ArePlain x.world → ArePlain (flows d k x).world }
    ensures submitted { (d : Deployment Wire) (world : World Wire) (client : ℕ) (op : Bytes) →
        ((changes : List Change) → d.formats.body_size changes ≡ 0) → ArePlain world → ArePlain (submits d world client op).world }
    ensures stepped { (d : Deployment Wire) (world : World Wire) (line : Line) →
        ((changes : List Change) → d.formats.body_size changes ≡ 0) → sets_no_stop line ≡ true → ArePlain world → ArePlain (step d world line).world }
{}

/// A flow delivers the oldest pair and goes on from there. It does nothing where nothing waits, or where the
/// oldest pair is of no message.
pub fn flows_one_by_one<Wire>()
    ensures none { (d : Deployment Wire) (x : Flowing Wire) → flows d 0 x ≡ x }
    ensures nothing { (d : Deployment Wire) (k : ℕ) (x : Flowing Wire) → x.world.waiting ≡ [] → flows d k x ≡ x }
    ensures stuck { (d : Deployment Wire) (k : ℕ) (x : Flowing Wire) (p : Pair) (ps : List Pair) →
        x.world.waiting ≡ p ∷ ps → slice_get x.world.sent p.message ≡ None → flows d k x ≡ x }
    ensures next { (d : Deployment Wire) (k : ℕ) (x : Flowing Wire) (p : Pair) (ps : List Pair) (wire : Wire) →
        x.world.waiting ≡ p ∷ ps → slice_get x.world.sent p.message ≡ Some wire →
        flows d (k + 1) x ≡ flows d k (counts d x (delivers d (with_waiting x.world ps) p.to wire)) }
{}

/// Where messages have no bytes, a world is ended by sending only as one message is too many.
pub fn sends_of_no_bytes<Wire>()
    ensures size { (d : Deployment Wire) (wires : List Wire) → ((wire : Wire) → d.formats.bytes wire ≡ []) → sent_size d wires ≡ 0 }
    ensures fault { (d : Deployment Wire) (world : World Wire) (wire : Wire) → ((wire : Wire) → d.formats.bytes wire ≡ []) →
        send_fault d world wire ≡ cond (nat_le MOST_MESSAGES (length world.sent)) (Some (TooMany (length world.sent + 1))) None }
    ensures few { (d : Deployment Wire) (world : World Wire) (wire : Wire) (to : List Dest) → ((wire : Wire) → d.formats.bytes wire ≡ []) →
        length world.sent < MOST_MESSAGES → world.ended ≡ None → (sends_to d world wire to).ended ≡ None }
    ensures many { (d : Deployment Wire) (world : World Wire) (wire : Wire) (to : List Dest) → ((wire : Wire) → d.formats.bytes wire ≡ []) →
        MOST_MESSAGES ≤ length world.sent → world.ended ≡ None → (sends_to d world wire to).ended ≡ Some (TooMany (length world.sent + 1)) }
{}

/// A world that goes on has sent no more than the most messages, and where no message has more than so many
/// destinations, no more pairs wait than these make.
pub fn worlds_stay_small<Wire>()
    ensures sent { (d : Deployment Wire) (most : ℕ) (all : List Line) → All (λ line. sets_no_stop line ≡ true) all →
        ((to : Scope) → length (dests_of d to) ≤ most) → (steps d empty all).ended ≡ None → length (steps d empty all).sent ≤ MOST_MESSAGES }
    ensures waiting { (d : Deployment Wire) (most : ℕ) (all : List Line) → All (λ line. sets_no_stop line ≡ true) all →
        ((to : Scope) → length (dests_of d to) ≤ most) → length (steps d empty all).waiting ≤ most * length (steps d empty all).sent }
{}

/// One event line more at the end is one step more, and what it comes to is said after the others.
pub fn lines_one_by_one<Wire>()
    ensures world { (d : Deployment Wire) (world : World Wire) (before : List Line) (line : Line) →
        steps d world (before ++ line ∷ []) ≡ (step d (steps d world before) line).world }
    ensures came { (d : Deployment Wire) (world : World Wire) (before : List (ℕ × Line)) (number : ℕ) (line : Line) →
        came_from d world (before ++ (number, line) ∷ [])
        ≡ came_from d world before ++ (number, (step d (steps d world (map (λ x. x.1) before)) line).done) ∷ [] }
{}

/// A message that is delivered to a server that isn't faulty comes to its plan, handed out, where all servers
/// run and no body is written. At a faulty server it comes to nothing.
pub fn deliveries_to_servers<Wire>()
    ensures planned { (d : Deployment Wire) (world : World Wire) (site index : ℕ) (wire : Wire) →
        ((changes : List Change) → d.formats.body_size changes ≡ 0) → ArePlain world → d.faulty site index ≡ false →
        serves d world site index (Deliver wire)
        ≡ stepped
        (hands_out d site index (with_node world site index (settled d (world.nodes site index) (plan_at d world site index (Deliver wire)))) (plan_at d world site index (Deliver wire)).outputs)
        (done.Outcome (plan_at d world site index (Deliver wire)).outcome) }
    ensures faulty { (d : Deployment Wire) (world : World Wire) (site index : ℕ) (wire : Wire) → d.faulty site index ≡ true →
        serves d world site index (Deliver wire) ≡ stepped world done.Faulty }
{}
