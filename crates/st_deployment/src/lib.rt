//! The deployment that a world runs today: its formats, its seals and its service, and what holds of it.
#![tactic(auto)]

ghost use Rattle.std.specs.Prelude.{◌≡◌, ℕ, ◌+◌, ◌*◌, ◌<◌, ◌≤◌, Bool, List};
ghost use Rattle.st_words.specs.declared.deployment.Deployment.{Deployment};
ghost use Rattle.st_words.specs.declared.ids.Who.{Who};
ghost use Rattle.st_words.specs.declared.statement.Statement.{Statement};
ghost use Rattle.st_message.specs.declared.message.Message.{Message};
ghost use Rattle.st_message.specs.declared.reason.Reason.{Reason};
ghost use Rattle.st_schedule.specs.declared.line.Line.{Line};
ghost use Rattle.st_protocol.specs.Words.{Bytes};
ghost use Rattle.st_protocol.specs.Questions.{questions};
ghost use Rattle.st_protocol.specs.Duty.{Deliver, Faulty, Clean, ignored};
ghost use Rattle.st_protocol.specs.World.{World, reads, seat_of, pen_at, plan_at};
ghost use Rattle.st_counts.specs.Counts.{count, numbers_below};
ghost use Rattle.st_ranges.specs.Ranges.{PenKeeps, ServeKeeps};
ghost use Rattle.st_ranges.specs.Deployments.{DeploymentInRange, LineInRange};
ghost use Rattle.st_config.specs.Taken.{IsTaken};
ghost use Rattle.st_config.specs.Built.{IsBuilt};
ghost use Rattle.st_server.specs.Deployed.{runs_no_code};
ghost use Rattle.st_server.specs.Serving.{plan_by_message};
ghost use Rattle.st_deployment.specs.Deployed.{of_file, world_deployment};
ghost use Rattle.st_deployment.specs.Deployable.{IsDeployable, IsLine, three_sites};

/// What the server plans for bytes is what it plans for the message as which it reads them; where it reads none,
/// it does nothing.
pub fn bytes_are_planned_as_read()
    ensures message { (d : Deployment) (world : World Bytes) (wire : Bytes) (m : Message) → reads (world_deployment d) wire ≡ Clean m →
        plan_by_message (seat_of (world_deployment d) 0 0) (pen_at (world_deployment d) 0 0)
        (questions (seat_of (world_deployment d) 0 0) (world.nodes 0 0).bodies (world.nodes 0 0).heard) m
        ≡ plan_at (world_deployment d) world 0 0 (Deliver wire) }
    ensures none { (d : Deployment) (world : World Bytes) (wire : Bytes) (reason : Reason) → reads (world_deployment d) wire ≡ Faulty reason →
        plan_at (world_deployment d) world 0 0 (Deliver wire) ≡ ignored reason }
{}

/// Every deployment of a file, with at most f faulty servers a site, is in range, whatever service it runs and whatever
/// parties seal, so long as results and seals keep their lengths (`deployment`): its numbers are of their widths, only
/// its servers run code, and a message in range is read as it was sent, if as any. So is every line of the grammar
/// (`line`): bytes from outside that it brings are read as a message in range, if as any. At most f servers of a site run
/// no code (`few`).
pub fn files_are_in_range()
    ensures deployment { (d : Deployment) (serve : List Bytes → Bytes → Bytes) (seal : Who → ℕ → Statement → Bytes) → IsDeployable d → ServeKeeps serve →
        ((who : Who) → PenKeeps (seal who)) → DeploymentInRange (of_file d serve (runs_no_code d) seal) }
    ensures line { (d : Deployment) (serve : List Bytes → Bytes → Bytes) (faulty : ℕ → ℕ → Bool) (seal : Who → ℕ → Statement → Bytes) (line : Line) → IsLine line →
        LineInRange (of_file d serve faulty seal) line }
    ensures few { (d : Deployment) → IsDeployable d → (s : ℕ) → s < d.sites → count (runs_no_code d s) (numbers_below (3 * d.f + 1)) ≤ d.f }
{}

/// Every deployment that is taken today is such a deployment (`taken`), and every line one of the grammar (`line`). There
/// is one of three sites, of which two have a faulty server (`one`).
pub fn taken_deployments_are_deployable()
    ensures taken { (d : Deployment) → IsTaken d → IsDeployable d }
    ensures line { (line : Line) → IsBuilt line → IsLine line }
    ensures one { IsDeployable three_sites }
{}

#[cfg(test)]
mod tests {
    use super::*;
    use std::test::*;

    #[test]
    fn laws_ask_nothing(rt: HostRuntime) {
        bytes_are_planned_as_read();
        files_are_in_range();
        taken_deployments_are_deployable();
        assert!(rt; true);
    }
}
