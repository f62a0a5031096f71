ghost use Rattle.std.specs.Prelude.{◌≡◌};

use st_fields::Seq;
use st_message::Here;
use st_seal::{Quorum, Signed};
use st_state::*;
use st_words::{ClientId, LocalView, Number, ServerId, SiteId, Statement, Update, Value, View};
use std::alloc::Global;
use std::test::*;

fn here() -> Here
    ensures { result.executed ≡ 0 }
{
    Here {
        id: 1,
        me: ServerId { site: 0, index: 0 },
        sites: 3,
        f: 1,
        view: View(0),
        local: LocalView(0),
        executed: 0,
        leaf: 0,
        capacity: 32,
    }
}

fn prepare() -> Statement {
    Statement::Prepare {
        site: SiteId(0),
        view: View(0),
        local: LocalView(0),
        number: Number(1),
        value: Value::Noop,
    }
}

fn proposal() -> Statement {
    Statement::Proposal {
        site: SiteId(0),
        view: View(0),
        local: LocalView(0),
        number: Number(1),
        value: Value::Noop,
    }
}

fn accept() -> Statement {
    Statement::Accept {
        site: SiteId(0),
        view: View(0),
        number: Number(1),
        value: Value::Noop,
    }
}

fn signed(alloc: Global) -> Signed {
    Signed {
        index: 2,
        seal: Seq::new(alloc),
    }
}

#[test]
fn a_prepare_that_is_made_stands(rt: HostRuntime) -> Result<(), Fail> {
    let alloc = rt.alloc();
    let here = here();
    let mut slots = Slots::new(alloc)?;
    let statement = prepare();
    slots.note_prepare(alloc, &here, 0, Number(1), &statement)?;
    assert!(rt; slots.made_prepare(&here, 1).is_some());
    Ok(())
}

#[test]
fn shares_of_a_prepare_are_kept(rt: HostRuntime) -> Result<(), Fail> {
    let alloc = rt.alloc();
    let here = here();
    let mut slots = Slots::new(alloc)?;
    let statement = prepare();
    slots.hear_prepare(alloc, &here, Number(1), &statement, &signed(alloc))?;
    assert!(rt; slots.prepare_shares(&here, 1).is_some());
    Ok(())
}

#[test]
fn a_proposal_that_is_made_stands(rt: HostRuntime) -> Result<(), Fail> {
    let alloc = rt.alloc();
    let here = here();
    let mut slots = Slots::new(alloc)?;
    let statement = proposal();
    slots.note_proposal(alloc, &here, 0, Number(1), &statement)?;
    assert!(rt; slots.made_proposal(&here, 1).is_some());
    Ok(())
}

#[test]
fn shares_of_a_proposal_are_kept(rt: HostRuntime) -> Result<(), Fail> {
    let alloc = rt.alloc();
    let here = here();
    let mut slots = Slots::new(alloc)?;
    let statement = proposal();
    slots.hear_proposal(alloc, &here, Number(1), &statement, &signed(alloc))?;
    assert!(rt; slots.proposal_shares(&here, 1).is_some());
    Ok(())
}

#[test]
fn an_accept_that_is_made_stands(rt: HostRuntime) -> Result<(), Fail> {
    let alloc = rt.alloc();
    let here = here();
    let mut slots = Slots::new(alloc)?;
    let statement = accept();
    slots.note_accept(alloc, &here, 0, Number(1), &statement)?;
    assert!(rt; slots.made_accept(&here, 1).is_some());
    Ok(())
}

#[test]
fn shares_of_an_accept_are_kept(rt: HostRuntime) -> Result<(), Fail> {
    let alloc = rt.alloc();
    let here = here();
    let mut slots = Slots::new(alloc)?;
    let statement = accept();
    slots.hear_accept(alloc, &here, Number(1), &statement, &signed(alloc))?;
    assert!(rt; slots.accept_shares(&here, 1).is_some());
    Ok(())
}

#[test]
fn an_item_that_is_prepared_is_noted(rt: HostRuntime) -> Result<(), Fail> {
    let alloc = rt.alloc();
    let here = here();
    let mut slots = Slots::new(alloc)?;
    let statement = prepare();
    let quorum = Quorum::new(alloc);
    slots.note_prepared(alloc, &here, Number(1), &statement, &quorum)?;
    assert!(rt; slots.prepared(&here, 1).is_some());
    Ok(())
}

#[test]
fn an_item_that_is_accepted_is_noted(rt: HostRuntime) -> Result<(), Fail> {
    let alloc = rt.alloc();
    let here = here();
    let mut slots = Slots::new(alloc)?;
    let statement = proposal();
    let quorum = Quorum::new(alloc);
    slots.note_accepted(alloc, &here, Number(1), &statement, &quorum)?;
    assert!(rt; slots.accepted(&here, 1).is_some());
    Ok(())
}

#[test]
fn the_window_of_slots_moves(rt: HostRuntime) -> Result<(), Fail> {
    let alloc = rt.alloc();
    let here = here();
    let mut slots = Slots::new(alloc)?;
    slots.move_up(&here);
    assert!(rt; slots.made_accept(&here, 1).is_none());
    Ok(())
}

#[test]
fn a_client_s_last_update_is_noted(rt: HostRuntime) -> Result<(), Fail> {
    let alloc = rt.alloc();
    let mut clients = Clients::new(alloc)?;
    clients.ran(alloc, ClientId(3), 7, 2)?;
    let copy = clients.copy(alloc)?;
    assert_eq!(rt; copy.last(ClientId(3)), 7);
    assert_eq!(rt; copy.place(ClientId(3)), 2);
    assert_eq!(rt; copy.last(ClientId(2)), 0);
    Ok(())
}

#[test]
fn an_update_is_pending_until_it_ran(rt: HostRuntime) -> Result<(), Fail> {
    let alloc = rt.alloc();
    let update = Update {
        client: ClientId(1),
        time: 4,
        op: Seq::new(alloc),
    };
    let mut pending = Pending::new(alloc, 2)?;
    pending.keep(alloc, 0, &update, &Seq::new(alloc))?;
    let copy = pending.copy(alloc)?;
    assert!(rt; copy.get(ClientId(1), 3).is_some());
    assert!(rt; copy.get(ClientId(1), 4).is_none());
    Ok(())
}

#[test]
fn a_word_of_a_number_is_kept(rt: HostRuntime) -> Result<(), Fail> {
    let alloc = rt.alloc();
    let here = here();
    let mut hand = Hand::new(alloc)?;
    hand.keep_accept(
        alloc,
        &here,
        SiteId(1),
        View(0),
        Number(1),
        &Value::Noop,
        &Quorum::new(alloc),
    )?;
    assert!(rt; hand.words(&here, 1).is_some());
    Ok(())
}

#[test]
fn the_window_of_the_hand_moves(rt: HostRuntime) -> Result<(), Fail> {
    let alloc = rt.alloc();
    let here = here();
    let mut hand = Hand::new(alloc)?;
    hand.move_up(&here);
    assert!(rt; hand.words(&here, 1).is_none());
    Ok(())
}

#[test]
fn an_own_certificate_of_a_proposal_is_kept(rt: HostRuntime) -> Result<(), Fail> {
    let alloc = rt.alloc();
    let mut own = Own::new(alloc)?;
    own.keep_proposal(alloc, &here(), Number(1), &proposal(), &Quorum::new(alloc))?;
    Ok(())
}

#[test]
fn an_own_certificate_of_an_accept_is_kept(rt: HostRuntime) -> Result<(), Fail> {
    let alloc = rt.alloc();
    let mut own = Own::new(alloc)?;
    own.keep_accept(alloc, &here(), Number(1), &accept(), &Quorum::new(alloc))?;
    own.move_up(&here());
    Ok(())
}

#[test]
fn nothing_is_forced_where_no_union_is_held(rt: HostRuntime) -> Result<(), Fail> {
    let alloc = rt.alloc();
    let here = here();
    let forced = Forced::without_unions(alloc, &here)?;
    let copy = forced.copy(alloc)?;
    assert!(rt; !copy.waits());
    assert!(rt; copy.value(&here, 1).is_none());
    Ok(())
}
