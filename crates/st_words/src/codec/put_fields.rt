//! Writers of the fields behind each kind of statement.

ghost use Rattle.std.specs.Prelude.{◌≡◌, ◌++◌, ◌∷◌, [], ◌≤◌, OnOk, length, All};
ghost use Rattle.std.specs.Int.{w32};
ghost use Rattle.st_fields.specs.Spelling.{joined, byte, number, text};
ghost use Rattle.st_words.specs.Ranges.{most_items, KeepsValue, KeepsStatement};
ghost use Rattle.st_words.specs.Spelling.{value_spelling, items_spelling, fields_spelling};

use crate::codec::item::put_items;
use crate::codec::value::{put_update, put_value};
use crate::ids::{LocalView, Number, SiteId, View};
use crate::statement::{Items, Statement};
use crate::value::Value;
use st_fields::{put_byte, put_text, put_u32};
use std::alloc::AllocError;

fn put_slot(
    out: &mut Vec<u8>,
    site: SiteId,
    view: View,
    local: LocalView,
    n: Number,
    value: &Value,
) -> Result<(), AllocError>
    requires { KeepsValue value.now }
    ensures { OnOk result (out.new.items ≡ out.old.items ++ joined (byte site.0 ∷ number w32 view.0 ∷ number w32 local.0 ∷ number w32 n.0 ∷ value_spelling value.now ∷ [])) }
{
    put_byte(out, site.0)?;
    put_u32(out, view.0)?;
    put_u32(out, local.0)?;
    put_u32(out, n.0)?;
    put_value(out, value)?;
    Ok(())
}

fn put_based(out: &mut Vec<u8>, base: u32, items: &Items) -> Result<(), AllocError>
    requires count { length items.now ≤ most_items }
    requires values { All (λ item. KeepsValue item.value) items.now }
    ensures { OnOk result (out.new.items ≡ out.old.items ++ joined (number w32 base ∷ items_spelling items.now ∷ [])) }
{
    put_u32(out, base)?;
    put_items(out, items)?;
    Ok(())
}

/// The fields behind a statement's kind.
#[tactic(auto, using(crate::proofs::Kept::kept_values), unfolding(crate::specs::Spelling::fields_spelling))]
pub fn put_fields(out: &mut Vec<u8>, statement: &Statement) -> Result<(), AllocError>
    requires { KeepsStatement statement.now }
    ensures { OnOk result (out.new.items ≡ out.old.items ++ fields_spelling statement.now) }
{
    match statement {
        Statement::Prepare {
            site,
            view,
            local,
            number,
            value,
        }
        | Statement::Proposal {
            site,
            view,
            local,
            number,
            value,
        } => put_slot(out, *site, *view, *local, *number, value)?,
        Statement::Accept {
            site,
            view,
            number,
            value,
        } => {
            put_byte(out, site.0)?;
            put_u32(out, view.0)?;
            put_u32(out, number.0)?;
            put_value(out, value)?;
        }
        Statement::LocalVc { site, local } => {
            put_byte(out, site.0)?;
            put_u32(out, local.0)?;
        }
        Statement::GlobalVc { site, view } => {
            put_byte(out, site.0)?;
            put_u32(out, view.0)?;
        }
        Statement::LocalReport {
            site,
            local,
            index,
            view,
            base,
            items,
        } => {
            put_byte(out, site.0)?;
            put_u32(out, local.0)?;
            put_byte(out, *index)?;
            put_u32(out, view.0)?;
            put_based(out, *base, items)?;
        }
        Statement::GlobalReport {
            site,
            view,
            index,
            base,
            items,
        } => {
            put_byte(out, site.0)?;
            put_u32(out, view.0)?;
            put_byte(out, *index)?;
            put_based(out, *base, items)?;
        }
        Statement::LocalUnion {
            site,
            local,
            greatest,
            base,
            items,
        } => {
            put_byte(out, site.0)?;
            put_u32(out, local.0)?;
            put_u32(out, greatest.0)?;
            put_based(out, *base, items)?;
        }
        Statement::GlobalUnion {
            site,
            view,
            base,
            items,
        } => {
            put_byte(out, site.0)?;
            put_u32(out, view.0)?;
            put_based(out, *base, items)?;
        }
        Statement::Reply {
            site,
            client,
            time,
            number,
            result,
        } => {
            put_byte(out, site.0)?;
            put_byte(out, client.0)?;
            put_u32(out, *time)?;
            put_u32(out, number.0)?;
            put_text(out, result.as_slice())?;
        }
        Statement::ClientUpdate { update } => {
            put_byte(out, 255)?;
            put_update(out, update)?;
        }
    }
    Ok(())
}
