ghost use Rattle.std.specs.Prelude.{◌≡◌};
ghost use Rattle.st_shares.specs.Known.{IsKnown};

use st_assign::*;
use st_fields::{Bytes, Seq, WordsError};
use st_message::Here;
use st_state::{Clients, Forced, Pending, Slots};
use st_words::{ClientId, LocalView, ServerId, Update, View};
use std::alloc::Global;
use std::test::*;

// A server of a site of four, which is the only one: the representative of the leading site.
fn place() -> Here
    ensures known { IsKnown result }
    ensures start { result.executed ≡ 0 }
    ensures four { result.f ≡ 1 }
{
    Here {
        id: 7,
        me: ServerId { site: 0, index: 0 },
        sites: 1,
        f: 1,
        view: View(0),
        local: LocalView(0),
        executed: 0,
        leaf: 0,
        capacity: 16,
    }
}

fn seal(alloc: Global) -> Result<Bytes, WordsError> {
    let bytes = Seq::from_slice(alloc, b"seal")?;
    Ok(bytes)
}

fn update(alloc: Global) -> Result<Update, WordsError> {
    let op = Seq::from_slice(alloc, b"append 5")?;
    Ok(Update {
        client: ClientId(0),
        time: 3,
        op,
    })
}

// How many numbers are filled where nothing is forced.
fn filled_numbers(
    alloc: Global,
    slots: &Slots,
    pending: &Pending,
    clients: &Clients,
    forced: &Forced,
) -> Result<usize, WordsError> {
    let step = fill(alloc, &place(), slots, pending, clients, forced)?;
    Ok(step.out.len())
}

fn unforced(
    alloc: Global,
    slots: &Slots,
    pending: &Pending,
    clients: &Clients,
) -> Result<usize, WordsError> {
    let forced = Forced::without_unions(alloc, &place())?;
    let count = filled_numbers(alloc, slots, pending, clients, &forced)?;
    Ok(count)
}

fn before_any_ran(alloc: Global, slots: &Slots, pending: &Pending) -> Result<usize, WordsError> {
    let clients = Clients::new(alloc)?;
    let count = unforced(alloc, slots, pending, &clients)?;
    Ok(count)
}

fn before_any_was_made(alloc: Global, pending: &Pending) -> Result<usize, WordsError> {
    let slots = Slots::new(alloc)?;
    let count = before_any_ran(alloc, &slots, pending)?;
    Ok(count)
}

// One client's pending update.
fn one_pending(alloc: Global) -> Result<Pending, WordsError> {
    let mut pending = Pending::new(alloc, 2)?;
    let update = update(alloc)?;
    let seal = seal(alloc)?;
    pending.keep(alloc, 0, &update, &seal)?;
    Ok(pending)
}

fn of_one_pending(alloc: Global) -> Result<usize, WordsError> {
    let pending = one_pending(alloc)?;
    let count = before_any_was_made(alloc, &pending)?;
    Ok(count)
}

#[test]
fn a_pending_update_is_assigned_once(rt: HostRuntime) -> Result<(), Fail> {
    let count = of_one_pending(rt.alloc())?;
    assert_eq!(rt; count, 1);
    Ok(())
}
