ghost use Rattle.std.specs.Prelude.{◌≡◌, ℕ, ◌≤◌, cond, nat_eq, Some, IfOk, IsTrue, IsOkUnless};
ghost use Rattle.std.specs.Option.{option_copied};
ghost use Rattle.st_fields.specs.declared.error.WordsError.TheVariants as words;
ghost use Rattle.st_protocol.specs.Step.{count_below};
ghost use Rattle.st_tables.specs.Entries.{entry};
ghost use Rattle.st_client.specs.Rows.{entry_in, answer_by, says};

use st_fields::{Bytes, Copied, Same, Shared, WordsError};
use st_tables::Table;
use st_words::Number;
use std::alloc::Global;

/// What a server answered: the number at which the update ran, and what it gave.
#[derive(Drop)]
pub struct Answer {
    pub number: Number,
    pub result: Bytes,
}

impl Copied for Answer {
    fn copy(&self, alloc: Global) -> Result<Answer, WordsError> {
        Ok(Answer {
            number: self.number,
            result: self.result.copy(alloc)?,
        })
    }
}

/// The answers of a site's servers, by index.
pub type Row = Table<Answer>;

/// The entry of a key, where there is a table.
pub fn entry_of<T>(table: Option<&Table<T>>, key: u8) -> Option<&T>
    ensures { option_copied result ≡ entry_in (option_copied table.entry) key }
{
    match table {
        Some(table) => table.get(key as usize),
        None => None,
    }
}

/// The table once this item is its key's.
#[tactic(auto, using(crate::proofs::RowLaws::entry_set))]
pub fn with_entry<T: Drop>(
    alloc: Global,
    table: Option<&Table<T>>,
    key: u8,
    item: T,
) -> Result<Table<T>, WordsError>
    ensures kept { IfOk result (λ new. (k : ℕ) → entry new k ≡ cond (nat_eq key k) (Some item) (entry_in (option_copied table.entry) k)) }
    ensures memory { IsOkUnless result words.OutOfMemory }
{
    let item = Shared::new(alloc, item)?;
    let mut new = copy_or_new(alloc, table)?;
    new.put(key as usize, Some(item))?;
    Ok(new)
}

/// An answer of this number and result.
pub fn make_answer(alloc: Global, number: Number, replied: &Bytes) -> Result<Answer, WordsError>
    ensures equal { IfOk result (λ answer. answer ≡ answer_by number replied.now) }
    ensures memory { IsOkUnless result words.OutOfMemory }
{
    let result = replied.copy(alloc)?;
    Ok(Answer { number, result })
}

/// How many of the first servers of a row gave this answer.
#[tactic(auto, using(st_protocol::proofs::BelowLaws::count_below_none, st_protocol::proofs::BelowLaws::count_below_more))]
pub fn agreeing(servers: usize, row: &Row, number: Number, replied: &Bytes) -> usize
    ensures count { result ≡ count_below (says (answer_by number replied.now) row.now) servers }
    ensures most { result ≤ servers }
{
    let mut count = 0;
    for i in 0..servers {
        if gives(row, i, number, replied) {
            count += 1;
        }
    }
    count
}

// Whether a server of a row gave this answer.
#[tactic(auto, unfolding(crate::specs::Rows::says))]
fn gives(row: &Row, key: usize, number: Number, replied: &Bytes) -> bool
    ensures { result ≡ says (answer_by number replied.now) row.now key }
{
    match row.get(key) {
        Some(answer) => number == answer.number && replied.same(&answer.result),
        None => false,
    }
}

// An equal table, or one without an entry where there is none.
fn copy_or_new<T: Drop>(alloc: Global, table: Option<&Table<T>>) -> Result<Table<T>, WordsError>
    ensures equal { IfOk result (λ new. (k : ℕ) → entry new k ≡ entry_in (option_copied table.entry) k) }
    ensures memory { IsOkUnless result words.OutOfMemory }
{
    match table {
        Some(table) => {
            let new = table.copy(alloc)?;
            Ok(new)
        }
        None => {
            let new = Table::new(alloc, 0)?;
            Ok(new)
        }
    }
}
