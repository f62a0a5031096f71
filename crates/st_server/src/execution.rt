ghost use Rattle.std.specs.Prelude.{◌≡◌, ℕ, List, ◌++◌, length, IfOk, OnOk, IsOkUnless};
ghost use Rattle.st_fields.specs.declared.error.WordsError.TheVariants as words;
ghost use Rattle.st_protocol.specs.State.{Run};
ghost use Rattle.st_protocol.specs.Questions.{executed_in, last_after, ops_of, ran_by, run_on, values_by};
ghost use Rattle.st_state.specs.ClientsView.{last_of};
ghost use Rattle.st_live.specs.Service.{kept_count, list_serve};
ghost use Rattle.st_server.specs.Execution.{Executes};

use st_fields::{Bytes, Copied, WordsError};
use st_live::Live;
use st_message::{Change, Changes, Entries, Entry, Ran};
use st_words::Value;
use std::alloc::Global;

/// Runs the values that the changes execute, in order, over the client table and the service's count of
/// the short state, and puts an entry for each last.
pub(crate) fn note_entries(
    alloc: Global,
    live: &mut Live,
    entries: &mut Entries,
    changes: &Changes,
) -> Result<(), WordsError>
    ensures executes { OnOk result ((run : Run) → Executes live.old entries.old run → Executes live.new entries.new (run_on list_serve run (executed_in changes.now))) }
    ensures memory { IsOkUnless result words.OutOfMemory }
{
    for change in changes.as_slice() {
        note_entry(alloc, live, entries, change)?;
    }
    Ok(())
}

// One change more.
fn note_entry(
    alloc: Global,
    live: &mut Live,
    entries: &mut Entries,
    change: &Change,
) -> Result<(), WordsError>
    ensures executes { OnOk result ((run : Run) → Executes live.old entries.old run → Executes live.new entries.new (run_on list_serve run (values_by change.now))) }
    ensures memory { IsOkUnless result words.OutOfMemory }
{
    if let Change::Executed { proof, .. } = change {
        let value = proof.value.copy(alloc)?;
        let ran = run_value(alloc, live, &value)?;
        entries.push(Entry { value, ran })?;
    }
    Ok(())
}

// Runs a value, if it is an update whose time is above its client's last, and answers what it gives.
fn run_value(alloc: Global, live: &mut Live, value: &Value) -> Result<Ran, WordsError>
    ensures ran { IfOk result (λ ran. (run : Run) → last_of live.old.clients ≡ run.last → live.old.ran ≡ kept_count (length run.ran) → ran ≡ ran_by list_serve run value.now) }
    ensures last { OnOk result ((c : ℕ) → last_of live.new.clients c ≡ last_after (last_of live.old.clients) value.now c) }
    ensures kept { OnOk result ((ops : List (List ℕ)) → live.old.ran ≡ kept_count (length ops) → live.new.ran ≡ kept_count (length (ops ++ ops_of (last_of live.old.clients) value.now))) }
    ensures memory { IsOkUnless result words.OutOfMemory }
{
    let Value::Update(update) = value else {
        return Ok(Ran::Nothing);
    };
    let last = live.clients.last(update.client);
    if last >= update.time {
        return Ok(Ran::Skipped { last });
    }
    // (at which number it ran is not asked)
    live.clients.ran(alloc, update.client, update.time, 0)?;
    live.ran = live.ran.saturating_add(1);
    let result = Bytes::from_slice(alloc, &live.ran.to_be_bytes())?;
    Ok(Ran::Ran { result })
}
