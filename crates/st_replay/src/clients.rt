ghost use Rattle.std.specs.Prelude.{◌≡◌, ◌<◌, IfOk, IsOkUnless};
ghost use Rattle.st_fields.specs.declared.error.WordsError.TheVariants as words;
ghost use Rattle.st_words.specs.declared.deployment.Deployment.{Deployment};
ghost use Rattle.st_protocol.specs.Words.{Bytes};
ghost use Rattle.st_protocol.specs.World as model;
ghost use Rattle.st_protocol.specs.Report.{client_row, client_rows};
ghost use Rattle.st_deployment.specs.Deployed.{world_deployment};
ghost use Rattle.st_world.specs.Answers.{result_seen};
ghost use Rattle.st_world.specs.Standing.{IsWorld};

use st_fields::{Bytes, Seq, WordsError};
use st_report::{ClientRow, ClientRows};
use st_words::{ClientId, Number};
use st_world::World;
use std::alloc::Global;

/// The rows of a world's clients, which are so many, in order.
pub(crate) fn client_rows(
    alloc: Global,
    world: &World,
    clients: u8,
) -> Result<ClientRows, WordsError>
    ensures rows { IfOk result (λ rows. (d : Deployment) (m : model.World Bytes) → IsWorld world.now d m → clients ≡ d.clients → rows ≡ client_rows (world_deployment d) m) }
    ensures memory { IsOkUnless result words.OutOfMemory }
{
    let mut rows = Seq::new(alloc);
    for client in 0..clients {
        let row = client_row(alloc, world, ClientId(client))?;
        rows.push(row)?;
    }
    Ok(rows)
}

// A client's row: its last time, and the result of its last update.
fn client_row(alloc: Global, world: &World, client: ClientId) -> Result<ClientRow, WordsError>
    ensures row { IfOk result (λ row. (d : Deployment) (m : model.World Bytes) → IsWorld world.now d m → client.0 < d.clients → row ≡ client_row client.0 (m.customers client.0)) }
    ensures memory { IsOkUnless result words.OutOfMemory }
{
    let Some((time, result)) = world.client(client) else {
        return Ok(ClientRow {
            client,
            time: 0,
            result: None,
        });
    };
    let result = own_result(alloc, result)?;
    Ok(ClientRow {
        client,
        time,
        result,
    })
}

// A result of its own.
fn own_result(
    alloc: Global,
    lent: Option<(Number, &[u8])>,
) -> Result<Option<(Number, Bytes)>, WordsError>
    ensures own { IfOk result (λ own. own ≡ result_seen lent.entry) }
    ensures memory { IsOkUnless result words.OutOfMemory }
{
    match lent {
        Some((number, bytes)) => {
            let bytes = Bytes::from_slice(alloc, bytes)?;
            Ok(Some((number, bytes)))
        }
        None => Ok(None),
    }
}
