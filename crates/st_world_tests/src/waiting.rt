use st_fields::WordsError;
use st_schedule::Dest;
use st_waiting::*;
use st_words::{ClientId, ServerId};
use std::alloc::Global;
use std::test::*;

fn server(site: u8, index: u8) -> Dest {
    Dest::Server(ServerId { site, index })
}

fn client(index: u8) -> Dest {
    Dest::Client(ClientId(index))
}

// What waits, taken one by one.
fn all_of(alloc: Global, waiting: &mut Waiting) -> Result<Vec<Pair>, WordsError> {
    let mut pairs = Vec::new(alloc);
    for _ in 0..waiting.len() {
        if let Some(pair) = waiting.pop() {
            pairs.push(pair)?;
        }
    }
    Ok(pairs)
}

#[test]
fn nothing_waits_at_first(rt: HostRuntime) -> Result<(), Fail> {
    let mut waiting = Waiting::new(rt.alloc())?;
    assert_eq!(rt; waiting.len(), 0);
    assert_eq!(rt; waiting.pop(), None);
    assert!(rt; !waiting.holds(0, client(0)));
    Ok(())
}

#[test]
fn the_oldest_pair_is_taken(rt: HostRuntime) -> Result<(), Fail> {
    let mut waiting = Waiting::new(rt.alloc())?;
    waiting.push(0, server(255, 255))?;
    waiting.push(1, client(255))?;
    assert_eq!(rt; waiting.len(), 2);
    assert_eq!(rt;
        waiting.pop(),
        Some(Pair {
            message: 0,
            to: server(255, 255)
        })
    );
    assert_eq!(rt;
        waiting.pop(),
        Some(Pair {
            message: 1,
            to: client(255)
        })
    );
    assert_eq!(rt; waiting.pop(), None);
    Ok(())
}

#[test]
fn a_pair_is_removed_once(rt: HostRuntime) -> Result<(), Fail> {
    let mut waiting = Waiting::new(rt.alloc())?;
    waiting.push(7, client(0))?;
    waiting.push(7, client(1))?;
    assert_eq!(rt; waiting.newest(), 7);
    assert!(rt; waiting.holds(7, client(1)));
    assert_eq!(rt; waiting.remove(7, client(1)), 1);
    assert_eq!(rt; waiting.remove(7, client(1)), 0);
    assert!(rt; !waiting.holds(7, client(1)));
    assert!(rt; waiting.holds(7, client(0)));
    Ok(())
}

#[test]
fn all_to_a_destination_are_lost(rt: HostRuntime) -> Result<(), Fail> {
    let mut waiting = Waiting::new(rt.alloc())?;
    waiting.push(0, server(0, 1))?;
    waiting.push(1, server(0, 1))?;
    waiting.push(1, server(1, 0))?;
    assert_eq!(rt; waiting.lose(server(0, 1)), 2);
    assert_eq!(rt; waiting.lose(server(0, 1)), 0);
    assert_eq!(rt; waiting.len(), 1);
    Ok(())
}

#[test]
fn calls_of_all_kinds_leave_the_others(rt: HostRuntime) -> Result<(), Fail> {
    let mut waiting = Waiting::new(rt.alloc())?;
    waiting.push(0, server(0, 0))?;
    waiting.push(0, server(0, 1))?;
    waiting.push(0, client(0))?;
    waiting.push(2, server(0, 0))?;
    waiting.push(2, client(0))?;
    waiting.push(3, server(0, 1))?;
    waiting.push(3, server(0, 0))?;
    assert_eq!(rt; waiting.remove(0, server(0, 1)), 1);
    assert_eq!(rt; waiting.remove(1, server(0, 1)), 0);
    assert_eq!(rt;
        waiting.pop(),
        Some(Pair {
            message: 0,
            to: server(0, 0)
        })
    );
    assert_eq!(rt; waiting.lose(client(0)), 2);
    assert_eq!(rt; waiting.len(), 3);
    waiting.push(3, client(0))?;
    waiting.push(4, client(0))?;
    assert!(rt; !waiting.holds(2, client(0)));
    assert!(rt; waiting.holds(3, client(0)));
    let left = [
        Pair {
            message: 2,
            to: server(0, 0),
        },
        Pair {
            message: 3,
            to: server(0, 1),
        },
        Pair {
            message: 3,
            to: server(0, 0),
        },
        Pair {
            message: 3,
            to: client(0),
        },
        Pair {
            message: 4,
            to: client(0),
        },
    ];
    let all = all_of(rt.alloc(), &mut waiting)?;
    assert_eq!(rt; all.as_slice(), left.as_slice());
    assert_eq!(rt; waiting.len(), 0);
    Ok(())
}
