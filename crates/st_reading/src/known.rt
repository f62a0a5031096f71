//! Whether all that a message names is of the deployment.

ghost use Rattle.std.specs.Prelude.{◌≡◌, ◌+◌, ◌*◌, ◌%◌, ◌<◌, ◌&&◌, true, nat_eq, nat_lt, length};
ghost use Rattle.st_protocol.specs.Keeping.{given};
ghost use Rattle.st_protocol.specs.Known as known;
ghost use Rattle.st_protocol.specs.Known.{all_of};

use st_message::{Message, Proof, ReportBody, SiteWord, ViewWords};
use st_seal::{Quorum, Signed};
use st_words::{ClientId, Deployment, Item, SiteId, Statement, Value, View};

fn knows_site(d: &Deployment, site: u8) -> bool
    ensures { result ≡ nat_lt site d.now.sites }
{
    site < d.sites
}

fn knows_index(d: &Deployment, index: u8) -> bool
    ensures { result ≡ nat_lt index (3 * d.now.f + 1) }
{
    u16::from(index) < 3 * u16::from(d.f) + 1
}

fn knows_client(d: &Deployment, client: ClientId) -> bool
    ensures { result ≡ nat_lt client.0 d.now.clients }
{
    client.0 < d.clients
}

fn knows_value(d: &Deployment, value: &Value) -> bool
    ensures { result ≡ known.knows_value d.now.sites d.now.f d.now.clients value.now }
{
    match value {
        Value::Noop => true,
        Value::Update(update) => knows_client(d, update.client),
    }
}

/// Whether the site is the view's leader.
fn leads(d: &Deployment, site: SiteId, view: View) -> bool
    requires { site.0 < d.now.sites }
    ensures { result ≡ nat_eq (view.0 % d.now.sites) site.0 }
{
    view.0 % u32::from(d.sites) == u32::from(site.0)
}

/// Whether the site leads the view of each item.
fn knows_own_items(d: &Deployment, site: SiteId, items: &[Item]) -> bool
    requires { site.0 < d.now.sites }
    ensures { result ≡ all_of (known.knows_own_item d.now.sites d.now.f d.now.clients site.0) items.now }
{
    items.iter().all(|item| knows_value(d, &item.value) && leads(d, site, item.view))
}

fn knows_items(d: &Deployment, items: &[Item]) -> bool
    ensures { result ≡ all_of (known.knows_item d.now.sites d.now.f d.now.clients) items.now }
{
    items.iter().all(|item| knows_value(d, &item.value))
}

#[tactic(auto, unfolding(st_protocol::specs::Known::knows_statement))]
fn knows_statement(d: &Deployment, statement: &Statement) -> bool
    ensures { result ≡ known.knows_statement d.now.sites d.now.f d.now.clients statement.now }
{
    match statement {
        Statement::Prepare {
            site,
            view,
            value,
            ..
        }
        | Statement::Proposal {
            site,
            view,
            value,
            ..
        } => knows_site(d, site.0) && leads(d, *site, *view) && knows_value(d, value),
        Statement::Accept { site, value, .. } => knows_site(d, site.0) && knows_value(d, value),
        Statement::LocalVc { site, .. } | Statement::GlobalVc { site, .. } => knows_site(d, site.0),
        Statement::LocalReport {
            site,
            index,
            items,
            ..
        } => knows_site(d, site.0)
            && knows_index(d, *index)
            && knows_own_items(d, *site, items.as_slice()),
        Statement::GlobalReport {
            site,
            index,
            items,
            ..
        } => knows_site(d, site.0) && knows_index(d, *index) && knows_items(d, items.as_slice()),
        Statement::LocalUnion { site, items, .. } => {
            knows_site(d, site.0) && knows_own_items(d, *site, items.as_slice())
        }
        Statement::GlobalUnion { site, items, .. } => {
            knows_site(d, site.0) && knows_items(d, items.as_slice())
        }
        Statement::Reply { site, client, .. } => {
            knows_site(d, site.0) && knows_client(d, *client)
        }
        Statement::ClientUpdate { update } => knows_client(d, update.client),
    }
}

fn knows_signed(d: &Deployment, signed: &Signed) -> bool
    ensures { result ≡ known.knows_signed d.now.sites d.now.f d.now.clients signed.now }
{
    knows_index(d, signed.index)
}

fn knows_shares(d: &Deployment, shares: &[Signed]) -> bool
    ensures { result ≡ all_of (known.knows_signed d.now.sites d.now.f d.now.clients) shares.now }
{
    shares.iter().all(|signed| knows_signed(d, signed))
}

#[tactic(auto, unfolding(st_protocol::specs::Known::knows_quorum))]
fn knows_quorum(d: &Deployment, quorum: &Quorum) -> bool
    ensures { result ≡ known.knows_quorum d.now.sites d.now.f d.now.clients quorum.now }
{
    quorum.len() == 2 * usize::from(d.f) + 1 && knows_shares(d, quorum.as_slice())
}

fn knows_site_word(d: &Deployment, word: &SiteWord) -> bool
    ensures { result ≡ known.knows_site_word d.now.sites d.now.f d.now.clients word.now }
{
    knows_site(d, word.site.0) && knows_quorum(d, &word.quorum)
}

fn knows_site_words(d: &Deployment, words: &[SiteWord]) -> bool
    ensures { result ≡ all_of (known.knows_site_word d.now.sites d.now.f d.now.clients) words.now }
{
    words.iter().all(|word| knows_site_word(d, word))
}

#[tactic(auto, unfolding(st_protocol::specs::Known::knows_sites))]
fn knows_sites(d: &Deployment, words: &[SiteWord]) -> bool
    ensures { result ≡ known.knows_sites d.now.sites d.now.f d.now.clients words.now }
{
    words.len() == usize::from(d.sites) / 2 + 1 && knows_site_words(d, words)
}

#[tactic(auto, unfolding(st_protocol::specs::Known::knows_proof))]
fn knows_proof(d: &Deployment, proof: &Proof) -> bool
    ensures { result ≡ known.knows_proof d.now.sites d.now.f d.now.clients proof.now }
{
    knows_value(d, &proof.value) && knows_sites(d, proof.sites.as_slice())
}

fn knows_base(d: &Deployment, base: &Option<Proof>) -> bool
    ensures { result ≡ given base.now true (known.knows_proof d.now.sites d.now.f d.now.clients) }
{
    match base {
        None => true,
        Some(proof) => knows_proof(d, proof),
    }
}

fn knows_quorums(d: &Deployment, quorums: &[Quorum]) -> bool
    ensures { result ≡ all_of (known.knows_quorum d.now.sites d.now.f d.now.clients) quorums.now }
{
    quorums.iter().all(|quorum| knows_quorum(d, quorum))
}

#[tactic(auto, unfolding(st_protocol::specs::Known::knows_report))]
fn knows_report(d: &Deployment, report: &ReportBody) -> bool
    ensures { result ≡ known.knows_report d.now.sites d.now.f d.now.clients report.now }
{
    knows_statement(d, &report.statement)
        && knows_quorums(d, report.quorums.as_slice())
        && knows_base(d, &report.base)
}

fn knows_reports(d: &Deployment, reports: &[ReportBody]) -> bool
    ensures { result ≡ all_of (known.knows_report d.now.sites d.now.f d.now.clients) reports.now }
{
    reports.iter().all(|report| knows_report(d, report))
}

fn knows_bundle(d: &Deployment, reports: &[ReportBody]) -> bool
    ensures { result ≡ (nat_eq (length reports.now) (2 * d.now.f + 1) && all_of (known.knows_report d.now.sites d.now.f d.now.clients) reports.now) }
{
    reports.len() == 2 * usize::from(d.f) + 1 && knows_reports(d, reports)
}

fn knows_words(d: &Deployment, why: &ViewWords) -> bool
    ensures { result ≡ known.knows_words d.now.sites d.now.f d.now.clients why.now }
{
    match why {
        ViewWords::Local { statement, quorum } => {
            knows_statement(d, statement) && knows_quorum(d, quorum)
        }
        ViewWords::Global { sites, .. } => knows_sites(d, sites.as_slice()),
    }
}

/// Whether every site, index and client that the message names is of the deployment, a Quorum has exactly 2f+1
/// seals, sites' words are those of exactly a majority, a Bundle has exactly 2f+1 reports, and the site of a
/// Prepare, of a Proposal and of a local report's and union's items leads its view. Takes no memory.
#[tactic(auto, unfolding(st_protocol::specs::Known::knows))]
pub fn knows(d: &Deployment, message: &Message) -> bool
    ensures { result ≡ known.knows d.now.sites d.now.f d.now.clients message.now }
{
    match message {
        Message::Update { update, .. } => knows_client(d, update.client),
        Message::Assign { value, signed, .. } => knows_value(d, value) && knows_signed(d, signed),
        Message::Share { statement, signed } | Message::Reply { statement, signed } => {
            knows_statement(d, statement) && knows_signed(d, signed)
        }
        Message::Certificate { statement, quorum } => {
            knows_statement(d, statement) && knows_quorum(d, quorum)
        }
        Message::OrderProof { proof, .. } => knows_proof(d, proof),
        Message::Report { report } => knows_report(d, report),
        Message::Bundle { reports } => knows_bundle(d, reports.as_slice()),
        Message::ViewProof { words } => knows_words(d, words),
        Message::Ask { server, .. } => knows_site(d, server.site) && knows_index(d, server.index),
    }
}
