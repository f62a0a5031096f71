ghost use Rattle.std.specs.Prelude.{◌≡◌};

use st_fields::Seq;
use st_message::{Form, Here, Scope};
use st_seal::Signed;
use st_shares::*;
use st_state::Slots;
use st_words::{ClientId, LocalView, Number, ServerId, SiteId, Statement, Update, Value, View};
use std::alloc::Global;
use std::test::*;

// A server of a site that tolerates so many faulty ones.
fn here(f: u8) -> Here
    ensures faults { result.f ≡ f }
    ensures executed { result.executed ≡ 0 }
{
    Here {
        id: 1,
        me: ServerId { site: 0, index: 0 },
        sites: 3,
        f,
        view: View(0),
        local: LocalView(5),
        executed: 0,
        leaf: 0,
        capacity: 32,
    }
}

fn accept() -> Statement {
    Statement::Accept {
        site: SiteId(0),
        view: View(0),
        number: Number(1),
        value: Value::Noop,
    }
}

fn signed(alloc: Global, index: u8) -> Signed {
    Signed {
        index,
        seal: Seq::new(alloc),
    }
}

#[test]
fn a_site_has_so_many_servers(rt: HostRuntime) -> Result<(), Fail> {
    let here = here(1);
    assert_eq!(rt; servers(&here), 4);
    assert_eq!(rt; quorum(&here), 3);
    assert_eq!(rt; majority(&here), 2);
    Ok(())
}

#[test]
fn a_site_has_a_representative(rt: HostRuntime) -> Result<(), Fail> {
    let here = here(1);
    assert_eq!(rt; rep(&here), 1);
    assert_eq!(rt; to_rep(&here), Scope::One(ServerId { site: 0, index: 1 }));
    assert_eq!(rt; to_site(&here), Scope::Site(SiteId(0)));
    Ok(())
}

#[test]
fn the_window_has_sixteen_numbers(rt: HostRuntime) -> Result<(), Fail> {
    let here = here(1);
    assert!(rt; !out_of_window(&here, Number(16)));
    assert!(rt; out_of_window(&here, Number(17)));
    Ok(())
}

#[test]
fn statements_are_compared(rt: HostRuntime) -> Result<(), Fail> {
    assert!(rt; same_statement(&accept(), &accept()));
    assert!(rt; same_value(&Value::Noop, &Value::Noop));
    assert!(rt; !says(None, &accept()));
    Ok(())
}

#[test]
fn updates_are_compared(rt: HostRuntime) -> Result<(), Fail> {
    let update = Update {
        client: ClientId(1),
        time: 4,
        op: Seq::new(rt.alloc()),
    };
    assert!(rt; same_update(&update, &update));
    Ok(())
}

#[test]
fn a_share_is_counted(rt: HostRuntime) -> Result<(), Fail> {
    let alloc = rt.alloc();
    let here = here(1);
    let mut slots = Slots::new(alloc)?;
    slots.hear_accept(alloc, &here, Number(1), &accept(), &signed(alloc, 2))?;
    let row = accept_row(&here, &slots, View(0), Number(1));
    assert_eq!(rt; agreeing(&here, row, &accept()), 1);
    assert!(rt; is_seen_share(&here, row, 2));
    Ok(())
}

#[test]
fn an_accept_that_was_made_is_found(rt: HostRuntime) -> Result<(), Fail> {
    let alloc = rt.alloc();
    let here = here(1);
    let mut slots = Slots::new(alloc)?;
    slots.note_accept(alloc, &here, 0, Number(1), &accept())?;
    assert!(rt; made_accept(&here, &slots, View(0), Number(1)).is_some());
    Ok(())
}

// A site of one server is its own quorum.
#[test]
fn a_share_completes_its_slot(rt: HostRuntime) -> Result<(), Fail> {
    let alloc = rt.alloc();
    let here = here(0);
    let signed = signed(alloc, 0);
    assert!(rt; !complete(&here, None));
    assert!(rt; completes(&here, None, &accept(), &signed));
    let quorum = completed(alloc, &here, None, &accept(), &signed)?;
    assert_eq!(rt; quorum.len(), 1);
    Ok(())
}

#[test]
fn a_complete_slot_is_certified(rt: HostRuntime) -> Result<(), Fail> {
    let alloc = rt.alloc();
    let step = certifies(
        alloc,
        &here(0),
        None,
        &accept(),
        &signed(alloc, 0),
        Scope::All,
    )?;
    assert_eq!(rt; step.heard.len(), 2);
    assert_eq!(rt; step.out.len(), 1);
    Ok(())
}

#[test]
fn steps_are_joined(rt: HostRuntime) -> Result<(), Fail> {
    let alloc = rt.alloc();
    let made = making(alloc, 0, accept(), Form::Share, Scope::All)?;
    let kept = keeping_share(alloc, &accept(), &signed(alloc, 0))?;
    let step = then(made, kept)?;
    assert_eq!(rt; step.changes.len(), 1);
    assert_eq!(rt; step.heard.len(), 1);
    assert_eq!(rt; step.out.len(), 1);
    Ok(())
}
