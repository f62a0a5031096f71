use st_fields::{Copied, Shared};
use st_tables::*;
use std::alloc::Global;
use std::test::*;

#[test]
fn a_table_has_one_entry_a_key(rt: HostRuntime) -> Result<(), Fail> {
    let alloc = rt.alloc();
    let mut table: Table<u8> = Table::new(alloc, 2)?;
    assert_eq!(rt; table.size(), 2);
    assert_eq!(rt; table.get(1), None);
    if 1 < table.size() {
        table.set(1, Some(Shared::new(alloc, 7)?));
    }
    table.put(4, Some(Shared::new(alloc, 9)?))?;
    let copy = table.copy(alloc)?;
    assert_eq!(rt; copy.get(1), Some(&7));
    assert_eq!(rt; copy.get(3), None);
    assert_eq!(rt; copy.get(4), Some(&9));
    assert_eq!(rt; copy.get(5), None);
    Ok(())
}

#[test]
fn a_ring_moves_its_window(rt: HostRuntime) -> Result<(), Fail> {
    let alloc = rt.alloc();
    let mut ring: Ring<u8> = Ring::new(alloc)?;
    ring.set(1, Some(Shared::new(alloc, 11)?));
    ring.set(16, Some(Shared::new(alloc, 26)?));
    assert_eq!(rt; ring.get(0, 1), Some(&11));
    assert_eq!(rt; ring.get(0, 17), None);
    ring.move_up(0);
    let copy = ring.copy(alloc)?;
    assert_eq!(rt; copy.get(1, 1), None);
    assert_eq!(rt; copy.get(1, 16), Some(&26));
    assert_eq!(rt; copy.get(1, 17), None);
    Ok(())
}
