//! What a server made stays covered by its items and its reports, unions are of a quorum of reports, and prepared values
//! are safe, in every world of lines in range: each law is the contract of a function that has nothing to do. The laws are
//! of what a server recorded as made, and so of all that it handed out (`made_statements_are_recorded` of `st_leaf_laws`).
#![tactic(auto)]

ghost use Rattle.std.specs.Prelude.{◌≡◌, ℕ, ◌<◌, false, IsTrue, Some, List, [], ◌∷◌, ◌++◌};
ghost use Rattle.std.specs.List.{AllByRecursion as Each};
ghost use Rattle.st_words.specs.declared.value.Value.{Value};
ghost use Rattle.st_words.specs.declared.statement.Item.{Item};
ghost use Rattle.st_words.specs.declared.statement.Statement.{Statement};
ghost use Rattle.st_message.specs.declared.change.Change.{Change};
ghost use Rattle.st_message.specs.declared.change.Change.TheVariants.{Union};
ghost use Rattle.st_schedule.specs.declared.line.Line.{Line};
ghost use Rattle.st_counts.specs.Counts.{Has};
ghost use Rattle.st_registers.specs.Tests.{Safe};
ghost use Rattle.st_agreement.specs.Worlds.{stands, inside, outside};
ghost use Rattle.st_protocol.specs.Words.{Quorum, a_prepare, a_proposal, an_accept, a_local_report, a_global_report, site_of, same_statement};
ghost use Rattle.st_protocol.specs.Keeping.{joined};
ghost use Rattle.st_protocol.specs.State.{Term, union_of};
ghost use Rattle.st_protocol.specs.Questions.{questions};
ghost use Rattle.st_protocol.specs.World.{Deployment, empty, seat_of};
ghost use Rattle.st_protocol.specs.Schedule.{steps};
ghost use Rattle.st_protocol.specs.Report.{answers_at};
ghost use Rattle.st_ranges.specs.Ranges.{MessageInRange};
ghost use Rattle.st_ranges.specs.Deployments.{DeploymentInRange, LineInRange};
ghost use Rattle.st_log_laws.specs.Handed.{comes_from_client};
ghost use Rattle.st_honest_laws.specs.Honest.{SealsAreRead};
ghost use Rattle.st_answer_laws.specs.Plain.{sites_in, plain_of};
ghost use Rattle.st_answer_laws.specs.Fair.{HasFewFaulty};
ghost use Rattle.st_union_laws.specs.Unions.{AreMaking, HasRecorded, KeepsAccept, KeepsProposal, ReportsAccept, ReportsProposal, IsOfReports};

/// In the world of any lines in range, a correct server whose records have it that it made an Accept has executed the
/// number, or keeps an accepted item there, of that view or a higher one (`accepts`). Where they have it that it made a
/// Proposal, it has executed the number, or keeps a prepared item there, of that view and local view or a higher place
/// (`proposals`). So it is once a stopped server's pending changes are recorded too, as at a restart that keeps them
/// (`pending_accepts`, `pending_proposals`).
pub fn items_cover_what_was_made<Wire>()
    ensures accepts { (d : Deployment Wire) (all : List Line) (s i site view n : ℕ) (v : Value) → HasFewFaulty d → DeploymentInRange d → SealsAreRead d MessageInRange → Each (LineInRange d) all →
        d.faulty s i ≡ false → HasRecorded (steps d empty all) s i (an_accept site view n v) → KeepsAccept (answers_at d (steps d empty all) s i) view n }
    ensures proposals { (d : Deployment Wire) (all : List Line) (s i site view local n : ℕ) (v : Value) → HasFewFaulty d → DeploymentInRange d → SealsAreRead d MessageInRange → Each (LineInRange d) all →
        d.faulty s i ≡ false → HasRecorded (steps d empty all) s i (a_proposal site view local n v) → KeepsProposal (answers_at d (steps d empty all) s i) view local n }
    ensures pending_accepts { (d : Deployment Wire) (all : List Line) (s i site view n : ℕ) (v : Value) (pending : List Change) → HasFewFaulty d → DeploymentInRange d → SealsAreRead d MessageInRange →
        Each (LineInRange d) all → d.faulty s i ≡ false → ((steps d empty all).nodes s i).apart ≡ Some pending →
        AreMaking (((steps d empty all).nodes s i).bodies ++ pending ∷ []) (an_accept site view n v) →
        KeepsAccept (questions (seat_of d s i) (((steps d empty all).nodes s i).bodies ++ pending ∷ []) []) view n }
    ensures pending_proposals { (d : Deployment Wire) (all : List Line) (s i site view local n : ℕ) (v : Value) (pending : List Change) → HasFewFaulty d → DeploymentInRange d → SealsAreRead d MessageInRange →
        Each (LineInRange d) all → d.faulty s i ≡ false → ((steps d empty all).nodes s i).apart ≡ Some pending →
        AreMaking (((steps d empty all).nodes s i).bodies ++ pending ∷ []) (a_proposal site view local n v) →
        KeepsProposal (questions (seat_of d s i) (((steps d empty all).nodes s i).bodies ++ pending ∷ []) []) view local n }
{}

/// Where a correct server made a report on a view, each Accept at a lower view that it makes, by this world or by any
/// later one, is of a number up to the report's base, or one at which the report has an item of that view or a higher one
/// (`views`). Where it made a report on a local view, so it is of each Proposal at a lower local view, of whatever view,
/// and of items of that view and local view or a higher place (`locals`).
pub fn reports_cover_what_is_made_below<Wire>()
    ensures views { (d : Deployment Wire) (all more : List Line) (s i site view index base : ℕ) (items : List Item) (of lower n : ℕ) (v : Value) → HasFewFaulty d → DeploymentInRange d →
        SealsAreRead d MessageInRange → Each (LineInRange d) (all ++ more) → d.faulty s i ≡ false → HasRecorded (steps d empty all) s i (a_global_report site view index base items) →
        HasRecorded (steps d empty (all ++ more)) s i (an_accept of lower n v) → lower < view → ReportsAccept base items lower n }
    ensures locals { (d : Deployment Wire) (all more : List Line) (s i site local index view base : ℕ) (items : List Item) (of at lower n : ℕ) (v : Value) → HasFewFaulty d → DeploymentInRange d →
        SealsAreRead d MessageInRange → Each (LineInRange d) (all ++ more) → d.faulty s i ≡ false → HasRecorded (steps d empty all) s i (a_local_report site local index view base items) →
        HasRecorded (steps d empty (all ++ more)) s i (a_proposal of at lower n v) → lower < local → ReportsProposal base items at lower n }
{}

/// A union on a view or a local view that a server made is the union, as it is defined, of 2f+1 reports on that view: of
/// distinct servers of the site, each with a seal that checks. And all but at most f of the site's correct servers have
/// handed out one of these reports (`made`). So it is of a union that stands at a site, as all but at most f of its
/// correct servers have handed it out (`stands`), and of one of which a correct server holds a certificate, of whatever
/// site it is (`held`).
pub fn unions_are_of_a_quorum_of_reports<Wire>()
    ensures made { (d : Deployment Wire) (all : List Line) (s i : ℕ) (term : Term) (t : Statement) → DeploymentInRange d → SealsAreRead d MessageInRange → Each (LineInRange d) all →
        HasRecorded (steps d empty all) s i t → union_of t ≡ Some term → IsOfReports d (steps d empty all).made s term t }
    ensures stands { (d : Deployment Wire) (all : List Line) (s : ℕ) (term : Term) (t : Statement) → HasFewFaulty d → DeploymentInRange d → SealsAreRead d MessageInRange → Each (LineInRange d) all →
        s < d.sites → IsTrue (stands (sites_in d) (plain_of d (steps d empty all)) s (λ x. same_statement x t)) → union_of t ≡ Some term → IsOfReports d (steps d empty all).made s term t }
    ensures held { (d : Deployment Wire) (all : List Line) (s i : ℕ) (term : Term) (t : Statement) (q : Quorum) → HasFewFaulty d → DeploymentInRange d → SealsAreRead d MessageInRange →
        Each (LineInRange d) all → d.faulty s i ≡ false → Has (Union t q) (joined ((steps d empty all).nodes s i).bodies) → union_of t ≡ Some term → IsOfReports d (steps d empty all).made (site_of t) term t }
{}

/// Where a correct server made a Prepare, its value is safe at the view and number in the flat world of the sites
/// (`outside`), and at the local view in the flat world inside the site (`inside`): in each lower view the value was
/// proposed, or a majority will accept nothing there any more. And the value is a no-op, or an update that its client
/// sealed and handed out (`handed`).
pub fn prepared_values_are_safe_in_worlds<Wire>()
    ensures outside { (d : Deployment Wire) (all : List Line) (s i site view local n : ℕ) (v : Value) → HasFewFaulty d → DeploymentInRange d → SealsAreRead d MessageInRange → Each (LineInRange d) all →
        d.faulty s i ≡ false → HasRecorded (steps d empty all) s i (a_prepare site view local n v) → Safe (outside (sites_in d) (plain_of d (steps d empty all)) n) view v }
    ensures inside { (d : Deployment Wire) (all : List Line) (s i site view local n : ℕ) (v : Value) → HasFewFaulty d → DeploymentInRange d → SealsAreRead d MessageInRange → Each (LineInRange d) all →
        d.faulty s i ≡ false → HasRecorded (steps d empty all) s i (a_prepare site view local n v) → Safe (inside (sites_in d) (plain_of d (steps d empty all)) view n) local v }
    ensures handed { (d : Deployment Wire) (all : List Line) (s i site view local n : ℕ) (v : Value) → HasFewFaulty d → DeploymentInRange d → SealsAreRead d MessageInRange → Each (LineInRange d) all →
        d.faulty s i ≡ false → HasRecorded (steps d empty all) s i (a_prepare site view local n v) → IsTrue (comes_from_client (steps d empty all).made v) }
{}

#[cfg(test)]
mod tests {
    use super::*;
    use st_fields::Bytes;
    use st_message::Message;
    use std::test::*;

    #[test]
    fn laws_ask_nothing(rt: HostRuntime) {
        items_cover_what_was_made::<Message>();
        items_cover_what_was_made::<Bytes>();
        reports_cover_what_is_made_below::<Message>();
        reports_cover_what_is_made_below::<Bytes>();
        unions_are_of_a_quorum_of_reports::<Message>();
        unions_are_of_a_quorum_of_reports::<Bytes>();
        prepared_values_are_safe_in_worlds::<Message>();
        prepared_values_are_safe_in_worlds::<Bytes>();
        assert!(rt; true);
    }
}
