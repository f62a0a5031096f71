use st_fields::{Seq, WordsError};
use st_registers::*;
use st_words::{ClientId, Update, Value};
use std::alloc::Global;
use std::test::Fail;

fn value(alloc: Global, op: u8) -> Result<Value, WordsError> {
    Ok(Value::Update(Update {
        client: ClientId(0),
        time: 1,
        op: Seq::from_slice(alloc, &[op])?,
    }))
}

#[test]
fn a_chosen_value_binds_higher_views(rt: HostRuntime) -> Result<(), Fail> {
    let alloc = rt.alloc();
    let (aa, bb) = (value(alloc, 0xaa)?, value(alloc, 0xbb)?);
    let mut flat = Flat::new(alloc, 3)?;
    assert_eq!(rt; flat.order(alloc, 1, 0), Err(FlatError::NoMajority));
    assert_eq!(rt; flat.propose(alloc, 0, 1, &aa), Ok(()));
    assert_eq!(rt; flat.accept(alloc, 0, 0, 1), Ok(()));
    assert_eq!(rt; flat.order(alloc, 1, 0), Err(FlatError::NoMajority));
    assert_eq!(rt; flat.accept(alloc, 1, 0, 1), Ok(()));
    assert_eq!(rt; flat.order(alloc, 1, 0), Ok(()));
    assert_eq!(rt; flat.propose(alloc, 1, 1, &bb), Err(FlatError::Unsafe));
    assert_eq!(rt; flat.propose(alloc, 0, 1, &bb), Err(FlatError::Taken));
    assert_eq!(rt; flat.propose(alloc, 1, 1, &aa), Ok(()));
    assert_eq!(rt; flat.close(alloc, 0, 0, 1), Err(FlatError::Written));
    Ok(())
}

#[test]
fn closed_registers_free_higher_views(rt: HostRuntime) -> Result<(), Fail> {
    let alloc = rt.alloc();
    let (aa, bb) = (value(alloc, 0xaa)?, value(alloc, 0xbb)?);
    let mut flat = Flat::new(alloc, 4)?;
    assert_eq!(rt; flat.propose(alloc, 0, 1, &aa), Ok(()));
    assert_eq!(rt; flat.propose(alloc, 0, 1, &aa), Ok(()));
    assert_eq!(rt; flat.accept(alloc, 3, 1, 1), Err(FlatError::NotProposed));
    assert_eq!(rt; flat.accept(alloc, 3, 0, 1), Ok(()));
    assert_eq!(rt; flat.close(alloc, 0, 0, 1), Ok(()));
    assert_eq!(rt; flat.close(alloc, 1, 0, 1), Ok(()));
    assert_eq!(rt; flat.propose(alloc, 1, 1, &bb), Err(FlatError::Unsafe));
    assert_eq!(rt; flat.close(alloc, 2, 0, 1), Ok(()));
    assert_eq!(rt; flat.propose(alloc, 1, 1, &bb), Ok(()));
    assert_eq!(rt; flat.accept(alloc, 2, 0, 1), Err(FlatError::Written));
    Ok(())
}

#[test]
fn laws_hold_at_a_type() {
    one_value_per_number::<u8>();
    advances::<u8>();
}
