ghost use Rattle.std.specs.Prelude.{◌≡◌, ℕ, ◌<◌, ◌≤◌, None, length, IfOk, OnOk, OnErr, IsOkUnless};
ghost use Rattle.std.specs.Option.{option_copied};
ghost use Rattle.st_fields.specs.declared.error.WordsError.TheVariants as words;
ghost use Rattle.st_tables.specs.Entries.{entry, Sets};

use st_fields::{Copied, Seq, Shared, WordsError};
use std::alloc::Global;
use std::marker::Model;

/// One entry, or none, for each key from 0 up to the table's size.
#[derive(Drop)]
pub struct Table<T> {
    entries: Seq<Option<Shared<T>>>,
}

impl<T> Model for Table<T> {
    ghost use Rattle.std.specs.Prelude.{List, Option};
    ghost use Rattle.std.specs.Coded.{coded_list, coded_option};

    ghost Value = { List (Option T) };

    ghost coded = { coded_list (coded_option T.code) };

    ghost view = { λ t. t.entries };
}

#[tactic(auto, unfolding(crate::specs::Entries::entry))]
impl<T> Table<T> {
    /// How many keys there are.
    pub fn size(&self) -> usize
        ensures { result ≡ length self.now }
    {
        self.entries.len()
    }

    /// The entry of a key, if there is one.
    pub fn get(&self, key: usize) -> Option<&T>
        ensures { option_copied result ≡ entry self.now key }
    {
        match self.entries.get(key) {
            Some(Some(shared)) => Some(shared.get()),
            _ => None,
        }
    }
}

#[tactic(auto, unfolding(crate::specs::Entries::entry))]
impl<T: Drop> Table<T> {
    /// A table of so many keys without an entry.
    #[tactic(auto, using(crate::proofs::EntriesLaws::entry_of_replicate), unfolding(crate::specs::Entries::entry))]
    pub fn new(alloc: Global, size: usize) -> Result<Table<T>, WordsError>
        ensures size { IfOk result (λ table. length table ≡ size) }
        ensures empty { IfOk result (λ table. (k : ℕ) → entry table k ≡ None) }
        ensures memory { IsOkUnless result words.OutOfMemory }
    {
        let mut entries = Seq::new(alloc);
        for _key in 0..size {
            entries.push(None)?;
        }
        Ok(Table { entries })
    }

    /// Writes the entry of a key.
    pub fn set(&mut self, key: usize, item: Option<Shared<T>>)
        requires { key < length self.old }
        ensures sets { Sets self.old self.new key item }
        ensures size { length self.new ≡ length self.old }
    {
        self.entries.set(key, item);
    }

    /// Writes the entry of a key, and makes the table large enough for it. Where memory is refused each
    /// entry is as before.
    #[tactic(auto, using(crate::proofs::EntriesLaws::entry_of_more, crate::proofs::EntriesLaws::entry_of_last, crate::proofs::EntriesLaws::entry_of_others), unfolding(crate::specs::Entries::entry))]
    pub fn put(&mut self, key: usize, item: Option<Shared<T>>) -> Result<(), WordsError>
        ensures sets { OnOk result (Sets self.old self.new key item) }
        ensures err { OnErr result ((k : ℕ) → entry self.new k ≡ entry self.old k) }
        ensures memory { IsOkUnless result words.OutOfMemory }
    {
        if key < self.entries.len() {
            self.entries.set(key, item);
            return Ok(());
        }
        for _key in self.entries.len()..key {
            self.entries.push(None)?;
        }
        self.entries.push(item)?;
        Ok(())
    }
}

impl<T: Drop> Copied for Table<T> {
    fn copy(&self, alloc: Global) -> Result<Table<T>, WordsError> {
        let entries = self.entries.copy(alloc)?;
        Ok(Table { entries })
    }
}
