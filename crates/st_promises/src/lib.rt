//! What is promised of worlds: each law is the contract of a function that has nothing to do.
#![tactic(auto)]

ghost use Rattle.std.specs.Prelude.{◌≡◌, ℕ, ◌^◌, ◌<◌, ◌≤◌, Bool, true, List, slice_index};
ghost use Rattle.std.specs.List.{All, AllByRecursion as Each};
ghost use Rattle.st_words.specs.declared.deployment.Deployment.{Deployment};
ghost use Rattle.st_words.specs.declared.ids.Who.{Who};
ghost use Rattle.st_words.specs.declared.value.Value.{Value};
ghost use Rattle.st_words.specs.declared.statement.Statement.{Statement};
ghost use Rattle.st_words.specs.Ranges.{KeepsStatement};
ghost use Rattle.st_words.specs.Spelling.{statement_spelling};
ghost use Rattle.st_message.specs.declared.message.Message.{Message};
ghost use Rattle.st_seal.specs.Scheme.{scheme_of, is_party};
ghost use Rattle.st_schedule.specs.declared.line.Line.{Line};
ghost use Rattle.st_hss_seal.specs.Keys.{is_choice};
ghost use Rattle.st_hss_seal.specs.Sealing.{capacity_of, holds};
ghost use Rattle.st_protocol.specs.Words.{Bytes};
ghost use Rattle.st_protocol.specs.Questions.{run_on, no_run};
ghost use Rattle.st_protocol.specs.Duty.{Clean};
ghost use Rattle.st_protocol.specs.World as model;
ghost use Rattle.st_reading.specs.Deployed.{wire_formats, wire_deployment};
ghost use Rattle.st_ranges.specs.Ranges.{MessageInRange, PenKeeps, ServeKeeps};
ghost use Rattle.st_ranges.specs.Deployments.{DeploymentInRange, LineInRange};
ghost use Rattle.st_config.specs.Taken.{IsTaken};
ghost use Rattle.st_config.specs.Built.{IsBuilt};
ghost use Rattle.st_server.specs.Deployed.{runs_no_code};
ghost use Rattle.st_deployment.specs.Deployed.{of_file, world_deployment};
ghost use Rattle.st_deployment.specs.Deployable.{IsDeployable, IsLine};
ghost use Rattle.st_honest_laws.specs.Honest.{SealsAreRead};
ghost use Rattle.st_answer_laws.specs.Fair.{HasFewFaulty};
ghost use Rattle.st_certificate_laws.specs.Certified.{message_is_certified};
ghost use Rattle.st_promises.specs.Logs.{times_ran};
ghost use Rattle.st_promises.specs.Promises.{AlwaysKeepsPromises};

/// A client's update of a time runs at most once in a log, whatever values the log has and whatever the
/// service answers.
pub fn updates_run_once()
    ensures { (serve : List Bytes → Bytes → Bytes) (values : List Value) (client time : ℕ) → times_ran client time (run_on serve no_run values).entries ≤ 1 }
{}

/// In every deployment in range with at most f faulty servers a site, whose formats read seals as they are sent, and
/// whatever lines in range come, the promises are kept before the first event line, after each, and after each delivery
/// of a flow. Of any two correct servers' logs one is a front of the other; every update in them was sealed and handed out
/// by its client and ran at most once; an event executes what is in hand; a client's result stands in a correct server's
/// log; one leaf is of one statement; views are entered by proof; a site has one voice. And over time logs agree, views
/// never fall, and flat steps lead from each world to each later one, among the sites and inside each leader site. Faulty
/// servers' seals, bytes from outside, losses, repeats, timeouts, stops and restarts are among the lines.
pub fn worlds_keep_promises<Wire>()
    ensures { (d : model.Deployment Wire) (all : List Line) → HasFewFaulty d → DeploymentInRange d → SealsAreRead d MessageInRange → Each (LineInRange d) all → AlwaysKeepsPromises d all }
{}

/// Bytes are read as the laws of worlds want it, whatever parties seal: a message in range is read as it was sent, the
/// seals that stand in it are those that it holds, what is read names only what the deployment has, in exactly its counts,
/// and no empty seal checks.
pub fn wire_seals_are_read()
    ensures { (d : Deployment) (serve : List Bytes → Bytes → Bytes) (faulty : ℕ → ℕ → Bool) (seal : Who → ℕ → Statement → Bytes) → d.id < 2 ^ 64 →
        SealsAreRead (of_file d serve faulty seal) MessageInRange }
{}

/// What a server reads of any bytes, its seals looked at (`read_checked`), holds a certificate at each place of one, of
/// exactly 2f+1 distinct servers of its site whose seals check over the bytes of its statement, and at each place of a
/// proof of an order or of a view one of exactly a majority of distinct sites, each with its certificate.
pub fn read_bytes_hold_certificates()
    ensures { (d : Deployment) (serve : List Bytes → Bytes → Bytes) (faulty : ℕ → ℕ → Bool) (bytes : List ℕ) (m : Message) → d.id < 2 ^ 64 → ((i : ℕ) → slice_index bytes i < 256) →
        model.reads (wire_deployment d serve faulty) bytes ≡ Clean m → message_is_certified (λ who s seal. holds d who (statement_spelling d.id s) seal) d.f d.sites m ≡ true }
{}

/// What a party seals over a statement's bytes, with a leaf that it has, checks (`checks`), and keeps its range (`keeps`).
/// In the deployment that a world runs today it is what a party seals of every statement that keeps its ranges, of all
/// eleven kinds, and so its seal checks there (`worlds`).
pub fn made_seals_check()
    ensures checks { (d : Deployment) (who : Who) (leaf : ℕ) (s : Statement) → is_choice d.seals ≡ true → is_party (scheme_of d) who ≡ true → leaf < capacity_of d →
        (wire_formats d).holds who s ((wire_formats d).seal who leaf s) ≡ true }
    ensures keeps { (d : Deployment) (who : Who) → is_choice d.seals ≡ true → PenKeeps ((wire_formats d).seal who) }
    ensures worlds { (d : Deployment) (who : Who) (leaf : ℕ) (s : Statement) → is_choice d.seals ≡ true → is_party (scheme_of d) who ≡ true → leaf < capacity_of d → KeepsStatement s →
        (world_deployment d).formats.holds who s ((world_deployment d).formats.seal who leaf s) ≡ true }
{}

/// So every deployment of a file keeps its promises, of any number of sites, with at most f faulty servers a site, at all
/// lines of the grammar: whatever service servers run and whatever parties seal, so long as results and seals keep their
/// lengths (`files`). The deployment that a world runs today is one (`worlds`), and so is what is taken today (`taken`).
pub fn deployed_worlds_keep_promises()
    ensures files { (d : Deployment) (serve : List Bytes → Bytes → Bytes) (seal : Who → ℕ → Statement → Bytes) (all : List Line) → IsDeployable d → ServeKeeps serve →
        ((who : Who) → PenKeeps (seal who)) → All IsLine all → AlwaysKeepsPromises (of_file d serve (runs_no_code d) seal) all }
    ensures worlds { (d : Deployment) (all : List Line) → IsDeployable d → All IsLine all → AlwaysKeepsPromises (world_deployment d) all }
    ensures taken { (d : Deployment) (all : List Line) → IsTaken d → All IsBuilt all → AlwaysKeepsPromises (world_deployment d) all }
{}

#[cfg(test)]
mod tests {
    use super::*;
    use st_fields::Bytes;
    use st_message::Message;
    use std::test::*;

    #[test]
    fn laws_ask_nothing(rt: HostRuntime) {
        updates_run_once();
        worlds_keep_promises::<Message>();
        worlds_keep_promises::<Bytes>();
        wire_seals_are_read();
        read_bytes_hold_certificates();
        made_seals_check();
        deployed_worlds_keep_promises();
        assert!(rt; true);
    }
}
