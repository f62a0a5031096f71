ghost use Rattle.std.specs.Prelude.{◌≡◌};
ghost use Rattle.st_words.specs.Ranges.{after_item};
ghost use Rattle.st_sealing.specs.Sealing as sealing;

use st_words::{Item, ItemLimits, Items, Number, Statement, Update, Value, limits_above};

/// The longest operation or result.
const MOST_TEXT: usize = 1_024;

/// How many items stand together at most.
const MOST_ITEMS: usize = 16;

/// The greatest base.
const MOST_BASE: u32 = u32::MAX - 16;

/// Whether a statement keeps its ranges.
pub fn keeps_ranges(statement: &Statement) -> bool
    ensures { result ≡ sealing.keeps_ranges statement.now }
{
    match statement {
        Statement::Prepare { number, value, .. } => keeps_slot(*number, value),
        Statement::Proposal { number, value, .. } => keeps_slot(*number, value),
        Statement::Accept { number, value, .. } => keeps_slot(*number, value),
        Statement::LocalVc { local, .. } => local.0 >= 1,
        Statement::GlobalVc { view, .. } => view.0 >= 1,
        Statement::LocalReport {
            local,
            view,
            base,
            items,
            ..
        } => local.0 >= 1 && keeps_above(*base, view.0, Some(local.0 - 1), items),
        Statement::GlobalReport {
            view,
            base,
            items,
            ..
        } => view.0 >= 1 && keeps_above(*base, view.0 - 1, None, items),
        Statement::LocalUnion {
            local,
            greatest,
            base,
            items,
            ..
        } => local.0 >= 1 && keeps_above(*base, greatest.0, None, items),
        Statement::GlobalUnion {
            view,
            base,
            items,
            ..
        } => view.0 >= 1 && keeps_above(*base, view.0 - 1, None, items),
        Statement::Reply {
            time,
            number,
            result: outcome,
            ..
        } => *time >= 1 && number.0 >= 1 && outcome.len() <= MOST_TEXT,
        Statement::ClientUpdate { update } => keeps_update(update),
    }
}

// Whether a base, and the items above it, keep their ranges.
fn keeps_above(base: u32, most_view: u32, most_local: Option<u32>, items: &Items) -> bool
    ensures { result ≡ sealing.keeps_above base most_view most_local items.now }
{
    base <= MOST_BASE
        && items.len() <= MOST_ITEMS
        && keeps_each(limits_above(base, most_view, most_local), items.as_slice())
}

// Whether each item is within the limits that those before it leave.
fn keeps_each(first: ItemLimits, items: &[Item]) -> bool
    ensures { result ≡ sealing.keeps_each first items.now }
{
    let mut limits = first;
    for item in items {
        if !keeps_item(&limits, item) {
            return false;
        }
        limits = after_item(&limits, item);
    }
    true
}

// The limits of the item behind this one: the numbers rise.
fn after_item(limits: &ItemLimits, item: &Item) -> ItemLimits
    ensures { result ≡ after_item limits.now item.now }
{
    ItemLimits {
        after: item.number.0,
        ..*limits
    }
}

fn keeps_item(limits: &ItemLimits, item: &Item) -> bool
    ensures { result ≡ sealing.keeps_item limits.now item.now }
{
    limits.after < item.number.0
        && item.number.0 <= limits.most
        && item.view.0 <= limits.most_view
        && keeps_limit(limits.most_local, item.local.0)
        && keeps_value(&item.value)
}

fn keeps_limit(limit: Option<u32>, local: u32) -> bool
    ensures { result ≡ sealing.keeps_limit limit local }
{
    match limit {
        None => true,
        Some(most) => local <= most,
    }
}

fn keeps_slot(number: Number, value: &Value) -> bool
    ensures { result ≡ sealing.keeps_slot number.0 value.now }
{
    number.0 >= 1 && keeps_value(value)
}

fn keeps_value(value: &Value) -> bool
    ensures { result ≡ sealing.keeps_value value.now }
{
    match value {
        Value::Noop => true,
        Value::Update(update) => keeps_update(update),
    }
}

fn keeps_update(update: &Update) -> bool
    ensures { result ≡ sealing.keeps_update update.now }
{
    update.time >= 1 && update.op.len() <= MOST_TEXT
}
