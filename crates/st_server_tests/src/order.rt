ghost use Rattle.std.specs.Prelude.{◌≡◌};
ghost use Rattle.st_shares.specs.Known.{IsKnown};

use st_message::Here;
use st_order::*;
use st_seal::Quorum;
use st_state::{Hand, Slots};
use st_words::{LocalView, Number, ServerId, SiteId, Statement, Value, View};
use std::test::*;

// The representative of a deployment of one site.
fn here() -> Here
    ensures known { IsKnown result }
    ensures executed { result.executed ≡ 0 }
{
    Here {
        id: 1,
        me: ServerId { site: 0, index: 0 },
        sites: 1,
        f: 1,
        view: View(0),
        local: LocalView(0),
        executed: 0,
        leaf: 0,
        capacity: 32,
    }
}

#[test]
fn a_proposal_is_noted_and_accepted(rt: HostRuntime) -> Result<(), Fail> {
    let alloc = rt.alloc();
    let slots = Slots::new(alloc)?;
    let proposal = Statement::Proposal {
        site: SiteId(0),
        view: View(0),
        local: LocalView(0),
        number: Number(1),
        value: Value::Noop,
    };
    match on_proposal(alloc, &here(), &slots, &proposal, &Quorum::new(alloc)) {
        Ok(step) => {
            assert_eq!(rt; step.changes.len(), 2);
            assert_eq!(rt; step.out.len(), 1);
        }
        Err(_) => assert!(rt; false),
    }
    Ok(())
}

// One site is a majority of one.
#[test]
fn an_accept_of_a_majority_executes_its_number(rt: HostRuntime) -> Result<(), Fail> {
    let alloc = rt.alloc();
    let hand = Hand::new(alloc)?;
    let statement = Statement::Accept {
        site: SiteId(0),
        view: View(0),
        number: Number(1),
        value: Value::Noop,
    };
    match on_accept(alloc, &here(), &hand, &statement, &Quorum::new(alloc)) {
        Ok(step) => {
            assert_eq!(rt; step.changes.len(), 1);
            assert_eq!(rt; step.heard.len(), 1);
        }
        Err(_) => assert!(rt; false),
    }
    Ok(())
}

#[test]
fn the_next_number_is_in_hand(rt: HostRuntime) -> Result<(), Fail> {
    let alloc = rt.alloc();
    let here = here();
    let mut hand = Hand::new(alloc)?;
    hand.keep_accept(
        alloc,
        &here,
        SiteId(0),
        View(0),
        Number(1),
        &Value::Noop,
        &Quorum::new(alloc),
    )?;
    assert_eq!(rt; next_ordered(&here, &hand), Some(Number(1)));
    Ok(())
}
