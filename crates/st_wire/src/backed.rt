//! What a message's parts ask of the statements in them.

ghost use Rattle.std.specs.Prelude.{◌≡◌, ◌≤◌, IfOk, IsOkUnless};
ghost use Rattle.st_fields.specs.declared.error.WordsError.TheVariants as words;
ghost use Rattle.st_wire.specs.Kind.{items_of, base_of};
ghost use Rattle.st_wire.specs.Seals.{site_of, index_of, signer, leader, item_statement};

use st_fields::{Copied, WordsError};
use st_words::{Item, ServerId, SiteId, Statement, View, Who};
use std::alloc::Global;

/// A report's items.
pub fn items_of(report: &Statement) -> &[Item]
    ensures { result.now ≡ items_of report.now }
{
    match report {
        Statement::LocalReport { items, .. } | Statement::GlobalReport { items, .. } => {
            items.as_slice()
        }
        _ => &[],
    }
}

/// A report's base.
pub fn base_of(report: &Statement) -> u32
    ensures { result ≡ base_of report.now }
{
    match report {
        Statement::LocalReport { base, .. } | Statement::GlobalReport { base, .. } => *base,
        _ => 0,
    }
}

/// The site that a statement names; 255 for a client's own.
pub fn site_of(statement: &Statement) -> u8
    ensures { result ≡ site_of statement.now }
{
    match statement {
        Statement::Prepare { site, .. }
        | Statement::Proposal { site, .. }
        | Statement::Accept { site, .. }
        | Statement::LocalVc { site, .. }
        | Statement::GlobalVc { site, .. }
        | Statement::LocalReport { site, .. }
        | Statement::GlobalReport { site, .. }
        | Statement::LocalUnion { site, .. }
        | Statement::GlobalUnion { site, .. }
        | Statement::Reply { site, .. } => site.0,
        Statement::ClientUpdate { .. } => u8::MAX,
    }
}

/// The server whose report it is.
pub fn index_of(report: &Statement) -> u8
    ensures { result ≡ index_of report.now }
{
    match report {
        Statement::LocalReport { index, .. } | Statement::GlobalReport { index, .. } => *index,
        _ => 0,
    }
}

/// A server of the statement's site.
pub fn signer(statement: &Statement, index: u8) -> Who
    ensures { result ≡ signer statement.now index }
{
    let site = site_of(statement);
    Who::Server(ServerId { site, index })
}

/// The leader site of a view.
pub fn leader(sites: u8, view: View) -> SiteId
    requires { 1 ≤ sites }
    ensures { result ≡ leader sites view }
{
    SiteId((view.0 % u32::from(sites)) as u8)
}

/// What backs a report's item.
pub fn item_statement(
    alloc: Global,
    sites: u8,
    report: &Statement,
    item: &Item,
) -> Result<Statement, WordsError>
    requires { 1 ≤ sites }
    ensures equal { IfOk result (λ s. s ≡ item_statement sites report.now item.now) }
    ensures memory { IsOkUnless result words.OutOfMemory }
{
    let value = item.value.copy(alloc)?;
    match report {
        Statement::LocalReport { site, .. } => Ok(Statement::Prepare {
            site: *site,
            view: item.view,
            local: item.local,
            number: item.number,
            value,
        }),
        _ => Ok(Statement::Proposal {
            site: leader(sites, item.view),
            view: item.view,
            local: item.local,
            number: item.number,
            value,
        }),
    }
}
