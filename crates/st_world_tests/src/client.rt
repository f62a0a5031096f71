use st_client::*;
use st_fields::{Bytes, Seq};
use st_message::{Message, Outcome, Reason};
use st_words::{Number, ServerId};
use std::test::*;

#[test]
fn a_client_asks_for_its_next_update(rt: HostRuntime) {
    let mut client = Client::new();
    assert_eq!(rt; client.time(), 0);
    assert!(rt; client.result().is_none());
    if client.time() < u32::MAX {
        client.submit();
    }
    assert_eq!(rt; client.time(), 1);
}

#[test]
fn one_reply_is_the_result_where_no_server_is_faulty(rt: HostRuntime) -> Result<(), Fail> {
    let alloc = rt.alloc();
    let mut client = Client::new();
    if client.time() < u32::MAX {
        client.submit();
    }
    let server = ServerId { site: 2, index: 0 };
    let replied: Bytes = Seq::new(alloc);
    let outcome = client.take_reply(alloc, 0, server, 1, Number(5), &replied)?;
    assert!(rt; outcome == Outcome::Did);
    let copy = client.copy(alloc)?;
    match copy.result() {
        Some(answer) => assert_eq!(rt; answer.number, Number(5)),
        None => assert!(rt; false),
    }
    let again = client.take_reply(alloc, 0, server, 1, Number(5), &replied)?;
    assert!(rt; again == Outcome::Ignored(Reason::OldTime { last: 0 }));
    Ok(())
}

#[test]
fn two_equal_replies_of_a_site_are_the_result(rt: HostRuntime) -> Result<(), Fail> {
    let alloc = rt.alloc();
    let mut client = Client::new();
    if client.time() < u32::MAX {
        client.submit();
    }
    let replied: Bytes = Seq::new(alloc);
    let first = ServerId { site: 2, index: 0 };
    client.take_reply(alloc, 1, first, 1, Number(5), &replied)?;
    assert!(rt; client.result().is_none());
    let repeated = client.take_reply(alloc, 1, first, 7, Number(5), &replied)?;
    assert!(rt; repeated == Outcome::Ignored(Reason::Seen));
    let last = ServerId { site: 2, index: 3 };
    let old = client.take_reply(alloc, 1, last, 7, Number(5), &replied)?;
    assert!(rt; old == Outcome::Ignored(Reason::OldTime { last: 1 }));
    client.take_reply(alloc, 1, last, 1, Number(5), &replied)?;
    assert!(rt; client.result().is_some());
    Ok(())
}

#[test]
fn laws_ask_nothing(rt: HostRuntime) {
    replies_in_a_world::<Message>();
    submissions_in_a_world::<Bytes>();
    assert!(rt; true);
}
