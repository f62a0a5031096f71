ghost use Rattle.std.specs.Prelude.{◌≡◌, ℕ, ◌+◌, ◌<◌, ◌≤◌, true, cond, nat_eq, nat_lt, ◌||◌, ◌&&◌, Some, IfOk, OnOk, OnErr, IsOkUnless};
ghost use Rattle.st_fields.specs.declared.error.WordsError.TheVariants as words;
ghost use Rattle.std.specs.Option.{option_copied};
ghost use Rattle.st_tables.specs.Entries.{entry};
ghost use Rattle.st_protocol.specs.Keeping.{given, or_else, higher};
ghost use Rattle.st_protocol.specs.State.{backed_view, backed_local};
ghost use Rattle.st_tables.specs.Window.{kept};
ghost use Rattle.st_state.specs.Writes.{Puts, PutsFirst, PutsAmong, among};

use st_fields::{Copied, Shared, WordsError};
use st_message::Backed;
use st_tables::{Ring, Table};
use std::alloc::Global;

/// Writes the entry of a number of the window above `base` that has none; of two the first stays.
pub(crate) fn keep_first<T: Drop>(ring: &mut Ring<T>, base: u32, number: u32, item: Shared<T>)
    requires above { base < number }
    requires below { number ≤ base + 16 }
    ensures { PutsFirst base ring.old ring.new number item }
{
    if ring.get(base, number).is_none() {
        ring.set(number, Some(item));
    }
}

/// Writes the item of a number of the window above `base`, unless there is one of as high a view and, at
/// one view, as high a local view.
pub(crate) fn keep_higher(ring: &mut Ring<Backed>, base: u32, number: u32, item: Shared<Backed>)
    requires above { base < number }
    requires below { number ≤ base + 16 }
    ensures { Puts base ring.old ring.new number (higher backed_view backed_local (kept base ring.old number) (Some item)) }
{
    if is_below(ring.get(base, number), item.get()) {
        ring.set(number, Some(item));
    }
}

// Whether there is no item, or one of a lower view or, at one view, of a lower local view.
fn is_below(old: Option<&Backed>, new: &Backed) -> bool
    ensures { result ≡ given (option_copied old.entry) true (λ x. nat_lt x.view new.now.view || (nat_eq x.view new.now.view && nat_lt x.local new.now.local)) }
{
    match old {
        Some(old) => old.view < new.view || (old.view == new.view && old.local < new.local),
        None => true,
    }
}

/// Writes a server's entry among those of a number of the window above `base`; of two the first stays.
pub(crate) fn keep_among<T: Drop>(
    alloc: Global,
    ring: &mut Ring<Table<T>>,
    base: u32,
    number: u32,
    index: u8,
    item: T,
) -> Result<(), WordsError>
    requires above { base < number }
    requires below { number ≤ base + 16 }
    ensures ok { OnOk result (PutsAmong base ring.old ring.new number index item) }
    ensures err { OnErr result (ring.new ≡ ring.old) }
    ensures memory { IsOkUnless result words.OutOfMemory }
{
    let row = with_first(alloc, ring.get(base, number), index, item)?;
    ring.set(number, Some(row));
    Ok(())
}

// The row with this entry, unless it has one there.
fn with_first<T: Drop>(
    alloc: Global,
    row: Option<&Table<T>>,
    index: u8,
    item: T,
) -> Result<Shared<Table<T>>, WordsError>
    ensures ok { IfOk result (λ new. (i : ℕ) → entry new i ≡ cond (nat_eq index i) (or_else (among (option_copied row.entry) index) (Some item)) (among (option_copied row.entry) i)) }
    ensures memory { IsOkUnless result words.OutOfMemory }
{
    let mut new = match row {
        Some(row) => row.copy(alloc)?,
        None => Table::new(alloc, 0)?,
    };
    if new.get(index as usize).is_none() {
        let item = Shared::new(alloc, item)?;
        new.put(index as usize, Some(item))?;
    }
    Shared::new(alloc, new)
}
