//! The bytes of items.

ghost use Rattle.std.specs.Prelude.{◌≡◌, ◌++◌, ◌≤◌, OnOk, length, All};
ghost use Rattle.st_fields.specs.Reading.{Gives};
ghost use Rattle.st_words.specs.Ranges.{most_base, most_items, KeepsValue, after_item, limits_above};
ghost use Rattle.st_words.specs.Spelling.{item_spelling, items_spelling};
ghost use Rattle.st_words.specs.Reading.{limited_at, item_at, items_at};

use crate::codec::value::{put_value, read_value};
use crate::ids::{LocalView, Number, View};
use crate::limits::ItemLimits;
use crate::statement::{Item, Items};
use st_fields::{
    FieldError, ReadsEach, Spelled, put_counted, put_u32, read_above, read_counted, read_u32,
    read_u32_in,
};
use std::alloc::{AllocError, Global};

/// How many items stand together at most.
pub const MOST_ITEMS: u8 = 16;

#[tactic(auto, unfolding(crate::specs::Reading::limited_at))]
fn read_limited(limit: Option<u32>, bytes: &[u8]) -> Result<(u32, &[u8]), FieldError>
    ensures { Gives (λ x. (x.0, x.1.now)) result (limited_at limit bytes.now) }
{
    match limit {
        None => read_u32(bytes),
        Some(most) => read_u32_in(bytes, 0, most),
    }
}

#[tactic(auto, unfolding(crate::specs::Reading::item_at))]
fn read_item<'a>(
    alloc: Global,
    limits: &ItemLimits,
    bytes: &'a [u8],
) -> Result<(Item, &'a [u8]), FieldError>
    ensures { Gives (λ x. (x.0, x.1.now)) result (item_at limits.now bytes.now) }
{
    let (number, rest) = read_above(bytes, limits.after, limits.most)?;
    let (view, rest) = read_u32_in(rest, 0, limits.most_view)?;
    let (local, rest) = read_limited(limits.most_local, rest)?;
    let (value, rest) = read_value(alloc, rest)?;
    let item = Item {
        number: Number(number),
        view: View(view),
        local: LocalView(local),
        value,
    };
    Ok((item, rest))
}

impl ReadsEach<Item> for ItemLimits {
    ghost reads = { item_at };

    ghost after = { after_item };

    fn read<'a>(&self, alloc: Global, bytes: &'a [u8]) -> Result<(Item, &'a [u8]), FieldError> {
        read_item(alloc, self, bytes)
    }

    fn go_past(self, element: &Item) -> ItemLimits {
        ItemLimits {
            after: element.number.0,
            ..self
        }
    }
}

/// Items behind their number, the first within the limits, and their numbers rising.
#[tactic(auto, unfolding(crate::specs::Reading::items_at))]
pub fn read_items(
    alloc: Global,
    limits: ItemLimits,
    bytes: &[u8],
) -> Result<(Items, &[u8]), FieldError>
    ensures { Gives (λ x. (x.0, x.1.now)) result (items_at limits bytes.now) }
{
    read_counted(alloc, 0, MOST_ITEMS, limits, bytes)
}

impl Spelled for Item {
    ghost spelling = { item_spelling };

    ghost keeps = { λ item. KeepsValue item.value };

    fn put(&self, out: &mut Vec<u8>) -> Result<(), AllocError> {
        put_item(out, self)
    }
}

#[tactic(auto, unfolding(crate::specs::Spelling::item_spelling))]
fn put_item(out: &mut Vec<u8>, item: &Item) -> Result<(), AllocError>
    requires { KeepsValue item.now.value }
    ensures { OnOk result (out.new.items ≡ out.old.items ++ item_spelling item.now) }
{
    put_u32(out, item.number.0)?;
    put_u32(out, item.view.0)?;
    put_u32(out, item.local.0)?;
    put_value(out, &item.value)?;
    Ok(())
}

/// Items behind their number. Where memory is refused, a part of them may stand in `out`.
#[tactic(auto, unfolding(crate::specs::Spelling::items_spelling))]
pub fn put_items(out: &mut Vec<u8>, items: &Items) -> Result<(), AllocError>
    requires count { length items.now ≤ most_items }
    requires values { All (λ item. KeepsValue item.value) items.now }
    ensures { OnOk result (out.new.items ≡ out.old.items ++ items_spelling items.now) }
{
    put_counted(out, items.as_slice())?;
    Ok(())
}

/// The greatest base: every number above it that an item may have is one of four bytes.
pub const MOST_BASE: u32 = u32::MAX - 16;

/// The limits of the first item of a list above `base`.
pub fn limits_above(base: u32, most_view: u32, most_local: Option<u32>) -> ItemLimits
    requires { base ≤ most_base }
    ensures { result ≡ limits_above base most_view most_local }
{
    ItemLimits {
        after: base,
        most: base + u32::from(MOST_ITEMS),
        most_view,
        most_local,
    }
}
