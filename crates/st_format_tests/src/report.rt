use st_fields::{Bytes, Copied, Seq, WordsError};
use st_message::{Ran, Reason};
use st_report::*;
use st_words::{ClientId, LocalView, Number, ServerId, Update, Value, View};
use std::alloc::{AllocError, Global};
use std::test::*;

fn bytes(alloc: Global, text: &[u8]) -> Result<Bytes, AllocError> {
    Ok(Seq::from_vec(Vec::from_slice(alloc, text)?))
}

fn value(alloc: Global) -> Result<Value, AllocError> {
    Ok(Value::Update(Update {
        client: ClientId(0),
        time: 1,
        op: bytes(alloc, b"hi")?,
    }))
}

fn log(alloc: Global) -> Result<LogRows, AllocError> {
    let ran = Ran::Ran {
        result: bytes(alloc, &[0, 0, 0, 1])?,
    };
    let rows = vec![in alloc;
        LogRow {
            value: value(alloc)?,
            ran
        },
        LogRow {
            value: Value::Noop,
            ran: Ran::Nothing
        },
        LogRow {
            value: value(alloc)?,
            ran: Ran::Skipped { last: 1 }
        },
    ]?;
    Ok(Seq::from_vec(rows))
}

fn rows(alloc: Global) -> Result<Rows, AllocError> {
    let done = vec![in alloc;
        DoneRow {
            line: 9,
            words: DoneWords::Sent(0)
        },
        DoneRow {
            line: 10,
            words: DoneWords::Flowed {
                pairs: 7,
                did: 6,
                ignored: 1
            }
        },
        DoneRow {
            line: 12,
            words: DoneWords::Ignored(Reason::OutOfWindow {
                number: 17,
                executed: 0
            })
        },
        DoneRow {
            line: 13,
            words: DoneWords::Shown(Seq::new(alloc))
        },
    ]?;
    let servers = vec![in alloc;
        ServerRow {
            who: ServerId { site: 0, index: 2 },
            state: StateWord::Running,
            view: View(0),
            local: LocalView(1),
            executed: 3,
            leaf: 4,
            log: log(alloc)?,
        },
    ]?;
    let clients = vec![in alloc;
        ClientRow {
            client: ClientId(0),
            time: 1,
            result: Some((Number(1), bytes(alloc, &[0, 0, 0, 1])?))
        },
        ClientRow {
            client: ClientId(1),
            time: 2,
            result: None
        },
        ClientRow {
            client: ClientId(2),
            time: 0,
            result: None
        },
    ]?;
    Ok(Rows {
        header: Header {
            id: 7,
            sites: 1,
            f: 1,
            clients: 3,
        },
        done: Seq::from_vec(done),
        servers: Seq::from_vec(servers),
        clients: Seq::from_vec(clients),
        sent: 7,
        undelivered: 0,
    })
}

fn copied(alloc: Global, rows: &Rows) -> Result<Rows, WordsError> {
    Ok(Rows {
        header: rows.header,
        done: rows.done.copy(alloc)?,
        servers: rows.servers.copy(alloc)?,
        clients: rows.clients.copy(alloc)?,
        sent: rows.sent,
        undelivered: rows.undelivered,
    })
}

#[test]
fn a_copy_of_rows_has_the_text_of_the_rows(rt: HostRuntime) -> Result<(), Fail> {
    let alloc = rt.alloc();
    let rows = copied(alloc, &rows(alloc)?)?;
    let text = report_text(alloc, &rows).ok().ok_or("memory")?;
    let wanted = b"deployment 7 sites 1 f 1 clients 3
line 9 sent 0
line 10 flow 7 did 6 ignored 1
line 12 ignored out-of-window 17 0
line 13 show -
server 0.2 running view 0 local 1 executed 3 leaf 4
number 1 update 0 1 6869 ran 00000001
number 2 noop
number 3 update 0 1 6869 skipped 1
client 0 time 1 number 1 result 00000001
client 1 time 2 waiting
client 2 time 0 idle
sent 7 undelivered 0
";
    assert!(rt; text.as_slice() == wanted.as_slice());
    Ok(())
}
