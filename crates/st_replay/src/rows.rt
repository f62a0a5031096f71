ghost use Rattle.std.specs.Prelude.{◌≡◌, List, IfOk, IsOkUnless};
ghost use Rattle.st_fields.specs.declared.error.WordsError.TheVariants as words;
ghost use Rattle.st_input.specs.declared.input.InputLine.{InputLine};
ghost use Rattle.st_world.specs.Standing.{IsStanding};
ghost use Rattle.st_replay.specs.Lines.{IsReplayed, rows_in};

use crate::clients::client_rows;
use crate::lines::Replay;
use crate::server::server_row;
use st_fields::{Seq, WordsError};
use st_report::{Header, Rows};
use st_words::Deployment;
use std::alloc::Global;

/// The rows of the world that event lines led to.
pub(crate) fn rows_of(alloc: Global, d: &Deployment, replay: Replay) -> Result<Rows, WordsError>
    requires stands { IsStanding replay.world }
    ensures rows { IfOk result (λ rows. (lines : List InputLine) → IsReplayed replay d.now lines → rows ≡ rows_in d.now lines) }
    ensures memory { IsOkUnless result words.OutOfMemory }
{
    let Replay { world, done } = replay;
    let (sent, undelivered) = world.counts();
    let clients = client_rows(alloc, &world, d.clients)?;
    let mut servers = Seq::new(alloc);
    servers.push(server_row(alloc, world.into_server())?)?;
    Ok(Rows {
        header: Header {
            id: d.id,
            sites: d.sites,
            f: d.f,
            clients: d.clients,
        },
        done,
        servers,
        clients,
        sent,
        undelivered,
    })
}
