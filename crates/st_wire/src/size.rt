//! How many bytes the words in a message take.

ghost use Rattle.std.specs.Prelude.{◌≡◌, ◌≤◌, ◌*◌, length, All};
ghost use Rattle.st_words.specs.Ranges.{most_items, KeepsUpdate, KeepsValue, KeepsStatement};
ghost use Rattle.std.specs.List.{flat_map};
ghost use Rattle.st_words.specs.Spelling.{update_spelling, value_spelling, item_spelling, items_spelling, core_spelling};

use st_words::{Item, Items, Statement, Update, Value};

/// An update's bytes, as a value.
#[tactic(auto, using(crate::proofs::Sizes::update_length))]
pub fn update_size(update: &Update) -> usize
    requires { KeepsUpdate update.now }
    ensures size { result ≡ length (update_spelling update.now) }
    ensures most { result ≤ 1032 }
{
    update.op.len() + 8
}

/// A value's bytes.
#[tactic(auto, unfolding(st_words::specs::Spelling::value_spelling))]
pub fn value_size(value: &Value) -> usize
    requires { KeepsValue value.now }
    ensures size { result ≡ length (value_spelling value.now) }
    ensures most { result ≤ 1032 }
{
    match value {
        Value::Noop => 1,
        Value::Update(update) => update_size(update),
    }
}

fn item_list_size(items: &[Item]) -> usize
    requires few { length items.now ≤ most_items }
    requires values { All (λ item. KeepsValue item.value) items.now }
    ensures size { result ≡ length (flat_map item_spelling items.now) }
    ensures most { result ≤ length items.now * 1044 }
{
    let mut size = 0;
    for item in items {
        size += value_size(&item.value) + 12;
    }
    size
}

/// The bytes of items, with their number.
#[tactic(auto, using(crate::proofs::Sizes::items_length))]
pub fn items_size(items: &Items) -> usize
    requires few { length items.now ≤ most_items }
    requires values { All (λ item. KeepsValue item.value) items.now }
    ensures size { result ≡ length (items_spelling items.now) }
    ensures most { result ≤ 16705 }
{
    item_list_size(items.as_slice()) + 1
}

/// A core's bytes.
#[tactic(auto, using(st_words::proofs::Kept::kept_values, crate::proofs::Sizes::core_length))]
pub fn core_size(statement: &Statement) -> usize
    requires { KeepsStatement statement.now }
    ensures { result ≡ length (core_spelling statement.now) }
{
    match statement {
        Statement::Prepare { value, .. } | Statement::Proposal { value, .. } => {
            value_size(value) + 14
        }
        Statement::Accept { value, .. } => value_size(value) + 10,
        Statement::LocalVc { .. } | Statement::GlobalVc { .. } => 6,
        Statement::LocalReport { items, .. } => items_size(items) + 15,
        Statement::GlobalReport { items, .. } => items_size(items) + 11,
        Statement::LocalUnion { items, .. } => items_size(items) + 14,
        Statement::GlobalUnion { items, .. } => items_size(items) + 10,
        Statement::Reply { result, .. } => result.len() + 13,
        Statement::ClientUpdate { update } => update_size(update) + 2,
    }
}
