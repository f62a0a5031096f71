ghost use Rattle.std.specs.Prelude.{◌≡◌, ℕ, true, false, List, [], ◌∷◌, ◌++◌};
ghost use Rattle.st_words.specs.declared.ids.Who.{Who};
ghost use Rattle.st_words.specs.declared.statement.Statement.{Statement};
ghost use Rattle.st_message.specs.declared.message.Message.{Message};
ghost use Rattle.st_message.specs.declared.change.Change.{Change};
ghost use Rattle.st_message.specs.declared.change.Heard.{Heard};
ghost use Rattle.st_schedule.specs.declared.line.Line.{Line};
ghost use Rattle.st_schedule.specs.declared.done.Done.TheVariants as done;
ghost use Rattle.st_protocol.specs.Words.{Bytes};
ghost use Rattle.st_protocol.specs.State.{Seat};
ghost use Rattle.st_protocol.specs.Duty.{Event, Deliver, Reading, Clean, Pen, duty, duty_of_message};
ghost use Rattle.st_protocol.specs.Known.{all_of};
ghost use Rattle.st_protocol.specs.World.{Deployment, passed, World, empty, stepped, with_node, reads, read_known, settled, hands_out, plan_at, serves};
ghost use Rattle.st_protocol.specs.Schedule.{sets_no_stop, step, world_of, dones};
ghost use Rattle.st_protocol.specs.Plain.{IsPlain, ArePlain};

/// Where a delivered message is read with nothing wrong, a server's duty is its duty at the message itself,
/// whatever a message is on its way.
pub fn duty_at_a_clean_message<Wire>()
    ensures { (read : Wire → Reading) (pen : Pen) (seat : Seat) (records : List (List Change)) (heard : List Heard) (wire : Wire) (m : Message) →
        read wire ≡ Clean m → duty read pen seat records heard (Deliver wire) ≡ duty_of_message pen seat records heard m }
{}

/// Where messages are passed as they are, each reads as itself, at a server and at a client.
pub fn messages_passed_read_clean()
    ensures server { (d : Deployment Message) (seal : Who → ℕ → Statement → Bytes) (m : Message) → d.formats ≡ passed seal → reads d m ≡ Clean m }
    ensures client { (d : Deployment Message) (seal : Who → ℕ → Statement → Bytes) (m : Message) → d.formats ≡ passed seal → read_known d m ≡ Clean m }
{}

/// Where no body is written, lines that set no stop leave every server running, with no stop set and an
/// empty journal; and an event of such a server is its plan, handed out.
pub fn worlds_without_stops<Wire>()
    ensures plain { (d : Deployment Wire) (all : List Line) →
        ((changes : List Change) → d.formats.body_size changes ≡ 0) → all_of sets_no_stop all ≡ true → ArePlain (world_of d all) }
    ensures served { (d : Deployment Wire) (world : World Wire) (site index : ℕ) (event : Event Wire) →
        ((changes : List Change) → d.formats.body_size changes ≡ 0) → IsPlain (world.nodes site index) → d.faulty site index ≡ false →
        serves d world site index event
        ≡ stepped
        (hands_out d site index (with_node world site index (settled d (world.nodes site index) (plan_at d world site index event))) (plan_at d world site index event).outputs)
        (done.Outcome (plan_at d world site index event).outcome) }
{}

/// One line more is one step more of the world of the lines before it, whatever a message is on its way.
pub fn worlds_of_longer_schedules<Wire>()
    ensures world { (d : Deployment Wire) (before : List Line) (line : Line) → world_of d (before ++ line ∷ []) ≡ (step d (world_of d before) line).world }
    ensures done { (d : Deployment Wire) (before : List Line) (line : Line) →
        dones d empty (before ++ line ∷ []) ≡ dones d empty before ++ (step d (world_of d before) line).done ∷ [] }
{}
