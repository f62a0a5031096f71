//! That the numbers of a statement are of their widths, as their types say: each is read once, so that
//! contracts know of it.

ghost use Rattle.std.specs.Prelude.{◌≡◌, ◌<◌, ◌^◌, All};
ghost use Rattle.st_words.specs.Ranges.{FitsUpdate, FitsValue, FitsItem, FitsStatement};

use st_words::{Item, Items, LocalView, Number, SiteId, Statement, Update, Value, View};

/// The numbers of an update are of their widths.
fn update_fits(update: &Update)
    ensures { FitsUpdate update.now }
{
    let _client = update.client.0;
    let _time = update.time;
}

/// The numbers of a value are of their widths.
fn value_fits(value: &Value)
    ensures { FitsValue value.now }
{
    match value {
        Value::Noop => {}
        Value::Update(update) => update_fits(update),
    }
}

/// The numbers of an item are of their widths.
fn item_fits(item: &Item)
    ensures { FitsItem item.now }
{
    let _number = item.number.0;
    let _view = item.view.0;
    let _local = item.local.0;
    value_fits(&item.value);
}

/// The numbers of each item are of their widths.
fn items_fit(items: &Items)
    ensures { All FitsItem items.now }
{
    for item in items.as_slice() {
        item_fits(item);
    }
}

/// The numbers of a Prepare or Proposal are of their widths.
fn slot_fits(site: SiteId, view: View, local: LocalView, number: Number, value: &Value)
    ensures { (site.0 < 2 ^ 8) × (view.0 < 2 ^ 32) × (local.0 < 2 ^ 32) × (number.0 < 2 ^ 32) × FitsValue value.now }
{
    value_fits(value);
}

/// The numbers of a union, or of a report but for its view and index, are of their widths.
fn listed_fits(site: SiteId, number: u32, base: u32, items: &Items)
    ensures { (site.0 < 2 ^ 8) × (number < 2 ^ 32) × (base < 2 ^ 32) × All FitsItem items.now }
{
    items_fit(items);
}

/// The numbers of what asks for a view or local view are of their widths.
fn asked_fits(site: SiteId, number: u32)
    ensures { (site.0 < 2 ^ 8) × (number < 2 ^ 32) }
{}

/// The numbers of a statement are of their widths.
pub fn statement_fits(statement: &Statement)
    ensures { FitsStatement statement.now }
{
    match statement {
        Statement::Prepare {
            site,
            view,
            local,
            number,
            value,
        } => slot_fits(*site, *view, *local, *number, value),
        Statement::Proposal {
            site,
            view,
            local,
            number,
            value,
        } => slot_fits(*site, *view, *local, *number, value),
        Statement::Accept {
            site,
            view,
            number,
            value,
        } => {
            let _site = site.0;
            let _view = view.0;
            let _number = number.0;
            value_fits(value);
        }
        Statement::LocalVc { site, local } => asked_fits(*site, local.0),
        Statement::GlobalVc { site, view } => asked_fits(*site, view.0),
        Statement::LocalReport {
            site,
            local,
            index,
            view,
            base,
            items,
        } => {
            let _index = *index;
            let _view = view.0;
            listed_fits(*site, local.0, *base, items);
        }
        Statement::GlobalReport {
            site,
            view,
            index,
            base,
            items,
        } => {
            let _index = *index;
            listed_fits(*site, view.0, *base, items);
        }
        Statement::LocalUnion {
            site,
            local,
            greatest,
            base,
            items,
        } => {
            let _greatest = greatest.0;
            listed_fits(*site, local.0, *base, items);
        }
        Statement::GlobalUnion {
            site,
            view,
            base,
            items,
        } => listed_fits(*site, view.0, *base, items),
        Statement::Reply {
            site,
            client,
            time,
            number,
            ..
        } => {
            let _client = client.0;
            let _time = *time;
            asked_fits(*site, number.0);
        }
        Statement::ClientUpdate { update } => update_fits(update),
    }
}
