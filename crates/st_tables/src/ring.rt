ghost use Rattle.std.specs.Prelude.{◌≡◌, ℕ, ◌+◌, ◌-◌, ◌^◌, ◌<◌, ◌≤◌, None, IfOk, IsOkUnless};
ghost use Rattle.std.specs.Option.{option_copied};
ghost use Rattle.st_fields.specs.declared.error.WordsError.TheVariants as words;
ghost use Rattle.st_tables.specs.Window.{kept, SetsNumber, MovesUp};

use crate::table::Table;
use st_fields::{Copied, Shared, WordsError};
use st_words::WINDOW;
use std::alloc::Global;
use std::marker::Model;

/// One entry, or none, for each number of a window of `WINDOW` numbers. The ring doesn't know where its
/// window stands: each call is told, or says what holds wherever it stands.
#[derive(Drop)]
pub struct Ring<T> {
    table: Table<T>,
}

impl<T> Model for Ring<T> {
    ghost use Rattle.std.specs.Prelude.{◌≡◌, List, Option, length};
    ghost use Rattle.std.specs.Coded.{coded_list, coded_option};

    ghost Value = { List (Option T) };

    ghost coded = { coded_list (coded_option T.code) };

    ghost view = { λ r. r.table };

    ghost invariant = { λ r. length r.table ≡ 16 };
}

#[tactic(auto, unfolding(crate::specs::Window::kept))]
impl<T> Ring<T> {
    /// The entry of a number of the window above `base`, if there is one; None for every other number.
    pub fn get(&self, base: u32, number: u32) -> Option<&T>
        ensures { option_copied result ≡ kept base self.now number }
    {
        if base < number && number - base <= WINDOW {
            self.table.get((number % WINDOW) as usize)
        } else {
            None
        }
    }
}

#[tactic(auto, unfolding(crate::specs::Window::kept))]
impl<T: Drop> Ring<T> {
    /// A ring without an entry.
    pub fn new(alloc: Global) -> Result<Ring<T>, WordsError>
        ensures empty { IfOk result (λ ring. (base n : ℕ) → kept base ring n ≡ None) }
        ensures memory { IsOkUnless result words.OutOfMemory }
    {
        let table = Table::new(alloc, WINDOW as usize)?;
        Ok(Ring { table })
    }

    /// Writes the entry of a number of the window.
    pub fn set(&mut self, number: u32, item: Option<Shared<T>>)
        ensures { SetsNumber self.old self.new number item }
    {
        self.table.set((number % WINDOW) as usize, item);
    }

    /// Moves the window above `base` up by one number, whose entry is dropped.
    pub fn move_up(&mut self, base: u32)
        requires { base < 2 ^ 32 - 1 }
        ensures { MovesUp self.old self.new base }
    {
        self.table.set(((base + 1) % WINDOW) as usize, None);
    }
}

impl<T: Drop> Copied for Ring<T> {
    fn copy(&self, alloc: Global) -> Result<Ring<T>, WordsError> {
        let table = self.table.copy(alloc)?;
        Ok(Ring { table })
    }
}
