use st_fields::{Copied, Same, Seq, WordsError};
use st_message::{Entry, Form, MadeSeal, Ran};
use st_words::{ClientId, ServerId, SiteId, Statement, Update, Value, View, Who};
use std::alloc::Global;
use std::test::*;

fn executed(alloc: Global, ran: Ran) -> Result<Entry, WordsError> {
    let op = Seq::from_slice(alloc, b"hi")?;
    Ok(Entry {
        value: Value::Update(Update {
            client: ClientId(1),
            time: 3,
            op,
        }),
        ran,
    })
}

#[test]
fn a_copy_is_the_same_entry(rt: HostRuntime) -> Result<(), Fail> {
    let alloc = rt.alloc();
    let result = Seq::from_slice(alloc, b"\x00\x00\x00\x01")?;
    let ran = executed(alloc, Ran::Ran { result })?;
    let skipped = executed(alloc, Ran::Skipped { last: 3 })?;
    let nothing = Entry {
        value: Value::Noop,
        ran: Ran::Nothing,
    };
    for entry in [&ran, &skipped, &nothing] {
        assert!(rt; entry.copy(alloc)?.same(entry));
    }
    assert!(rt; !ran.same(&skipped));
    assert!(rt; !skipped.same(&executed(alloc, Ran::Skipped { last: 2 })?));
    assert!(rt; !nothing.same(&ran));
    Ok(())
}

#[test]
fn a_copy_is_the_same_seal(rt: HostRuntime) -> Result<(), Fail> {
    let alloc = rt.alloc();
    let made = MadeSeal {
        who: Who::Server(ServerId { site: 2, index: 1 }),
        leaf: 9,
        statement: Statement::GlobalVc {
            site: SiteId(2),
            view: View(4),
        },
    };
    let copy = made.copy(alloc)?;
    assert!(rt; copy.who == made.who);
    assert_eq!(rt; copy.leaf, 9);
    assert!(rt; copy.statement.same(&made.statement));
    Ok(())
}

fn is_assign(form: &Form, seal: &[u8]) -> bool {
    match form {
        Form::Assign { client_seal } => client_seal.as_slice() == seal,
        _ => false,
    }
}

#[test]
fn a_copy_goes_out_in_the_same_form(rt: HostRuntime) -> Result<(), Fail> {
    let alloc = rt.alloc();
    let form = Form::Assign {
        client_seal: Seq::from_slice(alloc, b"seal")?,
    };
    let copy = form.copy(alloc)?;
    assert!(rt; is_assign(&copy, b"seal"));
    Ok(())
}
