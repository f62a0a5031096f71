//! The fields behind each kind of statement.

ghost use Rattle.std.specs.Prelude.{◌≡◌};
ghost use Rattle.st_fields.specs.Reading.{Gives};
ghost use Rattle.st_words.specs.Reading.{prepare_at, proposal_at, accept_at, local_vc_at, global_vc_at, local_union_at, global_union_at, reply_at, client_update_at};

use crate::codec::item::{MOST_BASE, limits_above, read_items};
use crate::codec::value::{MOST_TEXT, read_update, read_value};
use crate::ids::{ClientId, LocalView, Number, SiteId, View};
use crate::statement::Statement;
use st_fields::{
    FieldError, read_byte, read_mark, read_positive, read_text, read_u32, read_u32_in,
};
use std::alloc::Global;

#[tactic(auto, unfolding(crate::specs::Reading::prepare_at))]
pub fn read_prepare(alloc: Global, bytes: &[u8]) -> Result<(Statement, &[u8]), FieldError>
    ensures { Gives (λ x. (x.0, x.1.now)) result (prepare_at bytes.now) }
{
    let (site, rest) = read_byte(bytes)?;
    let (view, rest) = read_u32(rest)?;
    let (local, rest) = read_u32(rest)?;
    let (number, rest) = read_positive(rest)?;
    let (value, rest) = read_value(alloc, rest)?;
    let prepare = Statement::Prepare {
        site: SiteId(site),
        view: View(view),
        local: LocalView(local),
        number: Number(number),
        value,
    };
    Ok((prepare, rest))
}

#[tactic(auto, unfolding(crate::specs::Reading::proposal_at))]
pub fn read_proposal(alloc: Global, bytes: &[u8]) -> Result<(Statement, &[u8]), FieldError>
    ensures { Gives (λ x. (x.0, x.1.now)) result (proposal_at bytes.now) }
{
    let (site, rest) = read_byte(bytes)?;
    let (view, rest) = read_u32(rest)?;
    let (local, rest) = read_u32(rest)?;
    let (number, rest) = read_positive(rest)?;
    let (value, rest) = read_value(alloc, rest)?;
    let proposal = Statement::Proposal {
        site: SiteId(site),
        view: View(view),
        local: LocalView(local),
        number: Number(number),
        value,
    };
    Ok((proposal, rest))
}

#[tactic(auto, unfolding(crate::specs::Reading::accept_at))]
pub fn read_accept(alloc: Global, bytes: &[u8]) -> Result<(Statement, &[u8]), FieldError>
    ensures { Gives (λ x. (x.0, x.1.now)) result (accept_at bytes.now) }
{
    let (site, rest) = read_byte(bytes)?;
    let (view, rest) = read_u32(rest)?;
    let (number, rest) = read_positive(rest)?;
    let (value, rest) = read_value(alloc, rest)?;
    let accept = Statement::Accept {
        site: SiteId(site),
        view: View(view),
        number: Number(number),
        value,
    };
    Ok((accept, rest))
}

#[tactic(auto, unfolding(crate::specs::Reading::local_vc_at))]
pub fn read_local_vc(bytes: &[u8]) -> Result<(Statement, &[u8]), FieldError>
    ensures { Gives (λ x. (x.0, x.1.now)) result (local_vc_at bytes.now) }
{
    let (site, rest) = read_byte(bytes)?;
    let (local, rest) = read_positive(rest)?;
    let site = SiteId(site);
    let local = LocalView(local);
    Ok((Statement::LocalVc { site, local }, rest))
}

#[tactic(auto, unfolding(crate::specs::Reading::global_vc_at))]
pub fn read_global_vc(bytes: &[u8]) -> Result<(Statement, &[u8]), FieldError>
    ensures { Gives (λ x. (x.0, x.1.now)) result (global_vc_at bytes.now) }
{
    let (site, rest) = read_byte(bytes)?;
    let (view, rest) = read_positive(rest)?;
    let site = SiteId(site);
    let view = View(view);
    Ok((Statement::GlobalVc { site, view }, rest))
}

#[tactic(auto, unfolding(crate::specs::Reading::local_union_at))]
pub fn read_local_union(alloc: Global, bytes: &[u8]) -> Result<(Statement, &[u8]), FieldError>
    ensures { Gives (λ x. (x.0, x.1.now)) result (local_union_at bytes.now) }
{
    let (site, rest) = read_byte(bytes)?;
    let (local, rest) = read_positive(rest)?;
    let (greatest, rest) = read_u32(rest)?;
    let (base, rest) = read_u32_in(rest, 0, MOST_BASE)?;
    let (items, rest) = read_items(alloc, limits_above(base, greatest, None), rest)?;
    let union = Statement::LocalUnion {
        site: SiteId(site),
        local: LocalView(local),
        greatest: View(greatest),
        base,
        items,
    };
    Ok((union, rest))
}

#[tactic(auto, unfolding(crate::specs::Reading::global_union_at))]
pub fn read_global_union(alloc: Global, bytes: &[u8]) -> Result<(Statement, &[u8]), FieldError>
    ensures { Gives (λ x. (x.0, x.1.now)) result (global_union_at bytes.now) }
{
    let (site, rest) = read_byte(bytes)?;
    let (view, rest) = read_positive(rest)?;
    let (base, rest) = read_u32_in(rest, 0, MOST_BASE)?;
    let (items, rest) = read_items(alloc, limits_above(base, view - 1, None), rest)?;
    let union = Statement::GlobalUnion {
        site: SiteId(site),
        view: View(view),
        base,
        items,
    };
    Ok((union, rest))
}

#[tactic(auto, unfolding(crate::specs::Reading::reply_at))]
pub fn read_reply(alloc: Global, bytes: &[u8]) -> Result<(Statement, &[u8]), FieldError>
    ensures { Gives (λ x. (x.0, x.1.now)) result (reply_at bytes.now) }
{
    let (site, rest) = read_byte(bytes)?;
    let (client, rest) = read_byte(rest)?;
    let (time, rest) = read_positive(rest)?;
    let (number, rest) = read_positive(rest)?;
    let (outcome, rest) = read_text(alloc, rest, 0, MOST_TEXT)?;
    let reply = Statement::Reply {
        site: SiteId(site),
        client: ClientId(client),
        time,
        number: Number(number),
        result: outcome,
    };
    Ok((reply, rest))
}

#[tactic(auto, unfolding(crate::specs::Reading::client_update_at))]
pub fn read_client_update(alloc: Global, bytes: &[u8]) -> Result<(Statement, &[u8]), FieldError>
    ensures { Gives (λ x. (x.0, x.1.now)) result (client_update_at bytes.now) }
{
    let rest = read_mark(bytes, &[255])?;
    let (update, rest) = read_update(alloc, rest)?;
    Ok((Statement::ClientUpdate { update }, rest))
}
