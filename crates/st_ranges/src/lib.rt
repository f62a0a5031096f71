//! That what servers hand out keeps its ranges: each law is the contract of a function that has nothing to do.
#![tactic(auto)]

ghost use Rattle.std.specs.Prelude.{◌≡◌, ℕ, Bool, List};
ghost use Rattle.std.specs.List.{All};
ghost use Rattle.st_words.specs.declared.ids.Who.{Who};
ghost use Rattle.st_words.specs.declared.statement.Statement.{Statement};
ghost use Rattle.st_message.specs.declared.message.Message.{Message};
ghost use Rattle.st_message.specs.declared.change.Change.{Change};
ghost use Rattle.st_message.specs.declared.change.Heard.{Heard};
ghost use Rattle.st_schedule.specs.declared.line.Line.{Line};
ghost use Rattle.st_protocol.specs.Words.{Bytes};
ghost use Rattle.st_protocol.specs.State.{Seat};
ghost use Rattle.st_protocol.specs.Questions.{questions};
ghost use Rattle.st_protocol.specs.Duty.{Event, Reading, Clean, Pen, of_kind, plan_by, duty};
ghost use Rattle.st_protocol.specs.World.{Deployment, passed, empty, seat_of};
ghost use Rattle.st_protocol.specs.Schedule.{steps};
ghost use Rattle.st_ranges.specs.Ranges.{MessageInRange, PenKeeps, SeatInRange, EventInRange, ListsInRange, PlanInRange};
ghost use Rattle.st_ranges.specs.Deployments.{KeepsRanges, DeploymentInRange, LineInRange, IsEncoded, one_server};

/// A server's duty keeps ranges: where all that the server recorded and heard is in range, and what is delivered is read
/// as a message in range or as none, then the lists with what the plan adds to them are in range, and so is each message
/// that it sends. So it is at every event; the messages that today's server doesn't take are refused.
pub fn duties_keep_ranges<Wire>()
    ensures { (read : Wire → Reading) (pen : Pen) (seat : Seat) (bodies : List (List Change)) (heard : List Heard) (event : Event Wire) →
        PenKeeps pen → SeatInRange seat → ListsInRange seat bodies heard → EventInRange read event →
        PlanInRange seat bodies heard (duty read pen seat bodies heard event) }
{}

/// So does what the parts answer to a message, whether or not `duty` asks them today: the plan by which a part's answer
/// is carried out.
pub fn parts_keep_ranges()
    ensures { (pen : Pen) (seat : Seat) (bodies : List (List Change)) (heard : List Heard) (m : Message) →
        PenKeeps pen → SeatInRange seat → ListsInRange seat bodies heard → MessageInRange m →
        PlanInRange seat bodies heard (plan_by pen (questions seat bodies heard) (of_kind (questions seat bodies heard) m)) }
{}

/// In every world of lines in range, of a deployment in range, every message that was sent is the encoding of a message
/// in range, and all that each server recorded and heard is in range. So it is at every kind of line of the grammar.
/// A deployment is in range if its numbers are of their widths, its seals and its service keep their ranges, only
/// servers that it has run code, and a message in range is read as it was sent, if as any. A line is in range if the
/// grammar has it, and bytes from outside that it brings are read as a message in range, if as any.
pub fn worlds_send_in_range<Wire>()
    ensures sent { (d : Deployment Wire) (all : List Line) → DeploymentInRange d → All (LineInRange d) all → All (IsEncoded d) (steps d empty all).sent }
    ensures lists { (d : Deployment Wire) (all : List Line) (site index : ℕ) → DeploymentInRange d → All (LineInRange d) all →
        ListsInRange (seat_of d site index) ((steps d empty all).nodes site index).bodies ((steps d empty all).nodes site index).heard }
{}

/// Messages that are passed as they are, whatever is known of the deployment, are read as they were sent (`sent`). So
/// a deployment of such messages is in range, where its numbers, seals and service are and only its servers run code
/// (`inside`): there is one (`one`).
pub fn messages_passed_read_as_sent()
    ensures sent { (d : Deployment Message) (seal : Who → ℕ → Statement → Bytes) (knows : Message → Bool) (m n : Message) →
        d.formats ≡ record (passed seal) { knows = knows } → d.formats.read (d.formats.encode m) ≡ Clean n → n ≡ m }
    ensures inside { (d : Deployment Message) (seal : Who → ℕ → Statement → Bytes) (knows : Message → Bool) →
        d.formats ≡ record (passed seal) { knows = knows } → KeepsRanges d → DeploymentInRange d }
    ensures one { DeploymentInRange one_server }
{}
