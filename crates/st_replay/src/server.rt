ghost use Rattle.std.specs.Prelude.{◌≡◌, List, [], ◌∷◌, IfOk, IsOkUnless};
ghost use Rattle.std.specs.List.{flat_map};
ghost use Rattle.st_fields.specs.declared.error.WordsError.TheVariants as words;
ghost use Rattle.st_message.specs.declared.change.Change.{Change};
ghost use Rattle.st_message.specs.declared.change.Heard.{Heard};
ghost use Rattle.st_protocol.specs.Questions.{questions};
ghost use Rattle.st_protocol.specs.World.{Running};
ghost use Rattle.st_protocol.specs.Report.{log_row, server_row};
ghost use Rattle.st_server.specs.Serving.{Stands, seat_by};

use st_fields::{Seq, WordsError};
use st_message::{Entries, Entry};
use st_report::{LogRow, LogRows, ServerRow, StateWord};
use st_server::Server;
use std::alloc::Global;

/// The row of a server that runs: where it stands, and its log.
pub(crate) fn server_row(alloc: Global, server: Server) -> Result<ServerRow, WordsError>
    ensures row { IfOk result (λ row. (records : List (List Change)) (heard : List Heard) → Stands server records heard → row ≡ server_row Running (questions (seat_by server) records heard)) }
    ensures memory { IsOkUnless result words.OutOfMemory }
{
    let Server { live, entries, .. } = server;
    let log = rows_of_log(alloc, entries)?;
    let here = live.here;
    Ok(ServerRow {
        who: here.me,
        state: StateWord::Running,
        view: here.view,
        local: here.local,
        executed: here.executed,
        leaf: here.leaf,
        log,
    })
}

// A row for each entry.
fn rows_of_log(alloc: Global, entries: Entries) -> Result<LogRows, WordsError>
    ensures rows { IfOk result (λ rows. rows ≡ flat_map (λ entry. log_row entry ∷ []) entries) }
    ensures memory { IsOkUnless result words.OutOfMemory }
{
    let mut rows = Seq::new(alloc);
    for entry in entries.into_vec() {
        let Entry { value, ran } = entry;
        rows.push(LogRow { value, ran })?;
    }
    Ok(rows)
}
