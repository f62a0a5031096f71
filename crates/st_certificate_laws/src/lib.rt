//! What is recorded or sent as a certificate or as a proof is one, and views never fall and are entered by proof: each law
//! is the contract of a function that has nothing to do.
#![tactic(auto)]

ghost use Rattle.std.specs.Prelude.{◌≡◌, ℕ, ◌+◌, ◌*◌, ◌/◌, ◌<◌, ◌≤◌, Bool, true, List, length, ◌++◌, Option, Some, slice_get};
ghost use Rattle.std.specs.Option.{IfSome};
ghost use Rattle.std.specs.List.{AllByRecursion as Each, AllPairs};
ghost use Rattle.st_words.specs.declared.ids.Who.{Who};
ghost use Rattle.st_words.specs.declared.statement.Statement.{Statement};
ghost use Rattle.st_seal.specs.declared.quorum.Signed.{Signed};
ghost use Rattle.st_message.specs.declared.message.SiteWord.{SiteWord};
ghost use Rattle.st_message.specs.declared.message.Message.{Message};
ghost use Rattle.st_message.specs.declared.change.Change.{Change};
ghost use Rattle.st_schedule.specs.declared.line.Line.{Line};
ghost use Rattle.st_protocol.specs.Words.{Bytes, Quorum, server_at, a_local_vc, a_global_vc};
ghost use Rattle.st_protocol.specs.Keeping.{joined};
ghost use Rattle.st_protocol.specs.Duty.{Clean};
ghost use Rattle.st_protocol.specs.Certificates.{is_certificate, are_sites};
ghost use Rattle.st_protocol.specs.World.{Deployment, empty, reads};
ghost use Rattle.st_protocol.specs.Schedule.{steps};
ghost use Rattle.st_ranges.specs.Ranges.{MessageInRange, ReadingInRange};
ghost use Rattle.st_ranges.specs.Deployments.{DeploymentInRange, LineInRange};
ghost use Rattle.st_honest_laws.specs.Honest.{SealsAreRead};
ghost use Rattle.st_certificate_laws.specs.Certified.{record_is_certified, message_is_certified};
ghost use Rattle.st_certificate_laws.specs.Views.{view_at, local_at, IsLocalProved, IsViewProved, HaveAsked};

/// A certificate is one of exactly 2f+1 distinct servers of its site, by rising index, whose seals check over its statement
/// (`servers`); and the words of a proof of an order or of a view are of exactly a majority of distinct sites, by rising
/// number, each with its certificate (`sites`).
pub fn certificates_are_of_distinct_servers()
    ensures servers { (holds : Who → Statement → Bytes → Bool) (f sites site : ℕ) (s : Statement) (q : Quorum) → is_certificate holds f sites site s q ≡ true →
        (length q ≡ 2 * f + 1) × AllPairs (λ (x y : Signed). x.index < y.index) q × Each (λ (x : Signed). (x.index < 3 * f + 1) × (holds (server_at site x.index) s x.seal ≡ true)) q }
    ensures sites { (holds : Who → Statement → Bytes → Bool) (f sites : ℕ) (of_site : ℕ → Statement) (words : List SiteWord) → are_sites holds f sites of_site words ≡ true →
        (length words ≡ sites / 2 + 1) × AllPairs (λ (v w : SiteWord). v.site.0 < w.site.0) words
        × Each (λ (w : SiteWord). (w.site.0 < sites) × (is_certificate holds f sites w.site.0 (of_site w.site.0) w.quorum ≡ true)) words }
{}

/// In what a server reads as a message, its seals looked at, each certificate is one, of exactly 2f+1 distinct servers of
/// its site whose seals check over its statement, and each proof of an order or of a view is one, of exactly a majority of
/// distinct sites, each with its certificate: alone, behind an item of a report, as the proof of a report's base, and in
/// each report of a bundle. It is asked that what is read, if it is a message, is in range.
pub fn read_certificates_are_certificates<Wire>()
    ensures { (d : Deployment Wire) (wire : Wire) (m : Message) → SealsAreRead d MessageInRange → ReadingInRange (d.formats.read wire) → reads d wire ≡ Clean m →
        message_is_certified d.formats.holds d.f d.sites m ≡ true }
{}

/// In a deployment in range, and after lines in range, whatever faulty servers seal and whatever comes from outside: each
/// certificate in a server's records is one, of exactly 2f+1 distinct servers of its site whose seals check over its
/// statement, and each proof of an order or of a view is one, of exactly a majority of distinct sites, each with its
/// certificate (`recorded`); so of changes that may be there after a restart (`pending`). No premise is on how many
/// servers are faulty.
pub fn recorded_certificates_are_certificates<Wire>()
    ensures recorded { (d : Deployment Wire) (all : List Line) (s i : ℕ) → DeploymentInRange d → SealsAreRead d MessageInRange → Each (LineInRange d) all →
        Each (λ (x : Change). record_is_certified d.formats.holds d.f d.sites s x ≡ true) (joined ((steps d empty all).nodes s i).bodies) }
    ensures pending { (d : Deployment Wire) (all : List Line) (s i : ℕ) → DeploymentInRange d → SealsAreRead d MessageInRange → Each (LineInRange d) all →
        IfSome ((steps d empty all).nodes s i).apart (λ changes. Each (λ (x : Change). record_is_certified d.formats.holds d.f d.sites s x ≡ true) changes) }
{}

/// So is each certificate and each proof in a message that was sent, as it is read: alone, behind an item of a report, as
/// the proof of a report's base, and in each report of a bundle.
pub fn sent_certificates_are_certificates<Wire>()
    ensures { (d : Deployment Wire) (all : List Line) (n : ℕ) (wire : Wire) (m : Message) → DeploymentInRange d → SealsAreRead d MessageInRange → Each (LineInRange d) all →
        slice_get (steps d empty all).sent n ≡ Some wire → d.formats.read wire ≡ Clean m → message_is_certified d.formats.holds d.f d.sites m ≡ true }
{}

/// A server's view and local view, as its records answer, are at any later world no less: at any lines of any deployment,
/// stops and restarts among them.
pub fn views_never_fall<Wire>()
    ensures view { (d : Deployment Wire) (all more : List Line) (s i : ℕ) → view_at d (steps d empty all) s i ≤ view_at d (steps d empty (all ++ more)) s i }
    ensures local { (d : Deployment Wire) (all more : List Line) (s i : ℕ) → local_at d (steps d empty all) s i ≤ local_at d (steps d empty (all ++ more)) s i }
{}

/// In a deployment in range, and after lines in range: a server whose local view is above 0 has recorded that it entered
/// it, with a proof of it, of exactly 2f+1 distinct servers of its site (`local`); and one whose view is above 0, that it
/// entered it, with a proof of exactly a majority of distinct sites, each with its certificate (`view`). No premise is on
/// how many servers are faulty.
pub fn views_are_entered_by_proof<Wire>()
    ensures local { (d : Deployment Wire) (all : List Line) (s i : ℕ) → DeploymentInRange d → SealsAreRead d MessageInRange → Each (LineInRange d) all →
        0 < local_at d (steps d empty all) s i → IsLocalProved d (steps d empty all) s i }
    ensures view { (d : Deployment Wire) (all : List Line) (s i : ℕ) → DeploymentInRange d → SealsAreRead d MessageInRange → Each (LineInRange d) all →
        0 < view_at d (steps d empty all) s i → IsViewProved d (steps d empty all) s i }
{}

/// Of the seals by which a server entered its local view, each that names a correct server was handed out by that server
/// (`local`); and so in the words of each site by which it entered its view (`view`).
pub fn correct_servers_asked<Wire>()
    ensures local { (d : Deployment Wire) (all : List Line) (s i : ℕ) → DeploymentInRange d → SealsAreRead d MessageInRange → Each (LineInRange d) all →
        (p : IsLocalProved d (steps d empty all) s i) → HaveAsked d (steps d empty all).made s (a_local_vc s (local_at d (steps d empty all) s i)) p.quorum }
    ensures view { (d : Deployment Wire) (all : List Line) (s i : ℕ) → DeploymentInRange d → SealsAreRead d MessageInRange → Each (LineInRange d) all →
        (p : IsViewProved d (steps d empty all) s i) →
        Each (λ (w : SiteWord). HaveAsked d (steps d empty all).made w.site.0 (a_global_vc w.site.0 (view_at d (steps d empty all) s i)) w.quorum) p.words }
{}

#[cfg(test)]
mod tests {
    use super::*;
    use st_fields::Bytes;
    use st_message::Message;
    use std::test::*;

    #[test]
    fn laws_ask_nothing(rt: HostRuntime) {
        certificates_are_of_distinct_servers();
        read_certificates_are_certificates::<Message>();
        read_certificates_are_certificates::<Bytes>();
        recorded_certificates_are_certificates::<Message>();
        recorded_certificates_are_certificates::<Bytes>();
        sent_certificates_are_certificates::<Message>();
        sent_certificates_are_certificates::<Bytes>();
        views_never_fall::<Message>();
        views_never_fall::<Bytes>();
        views_are_entered_by_proof::<Message>();
        views_are_entered_by_proof::<Bytes>();
        correct_servers_asked::<Message>();
        correct_servers_asked::<Bytes>();
        assert!(rt; true);
    }
}
