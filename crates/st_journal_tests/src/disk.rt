use st_disk::*;
use st_words::ServerId;
use std::test::*;

/// A disk that holds these bytes, all of them on the disk.
fn held(rt: &HostRuntime, bytes: &[u8]) -> Result<MemoryDisk, Fail> {
    let mut disk = MemoryDisk::new(rt.alloc())?;
    disk.write_at(0, bytes)?;
    disk.sync()?;
    Ok(disk)
}

/// Whether reads give these bytes.
fn gives<D: Disk>(disk: &mut D, bytes: &[u8]) -> Result<bool, Fail> {
    let mut piece = [9u8; 8];
    let count = disk.read_at(0, &mut piece)?;
    Ok(&piece[..count] == bytes)
}

#[test]
fn a_gap_is_filled_with_zeros(rt: HostRuntime) -> Result<(), Fail> {
    let mut disk = held(&rt, b"ab")?;
    disk.write_at(4, b"cd")?;
    assert!(rt; gives(&mut disk, b"ab\0\0cd")?);
    disk.cut(3)?;
    assert_eq!(rt; disk.size()?, 3);
    disk.cut(5)?;
    assert!(rt; gives(&mut disk, b"ab\0\0\0")?);
    Ok(())
}

#[test]
fn a_crash_keeps_all_or_loses_all(rt: HostRuntime) -> Result<(), Fail> {
    let mut kept = held(&rt, b"abc")?;
    kept.cut(1)?;
    kept.write_at(1, b"zy")?;
    let mut kept = kept.crash(true);
    assert!(rt; gives(&mut kept, b"azy")?);
    kept.write_at(2, b"x")?;
    let mut lost = kept.crash(false);
    assert!(rt; gives(&mut lost, b"azy")?);
    Ok(())
}

#[test]
fn the_set_call_fails(rt: HostRuntime) -> Result<(), Fail> {
    let mut disk = held(&rt, b"abc")?;
    disk.fail_at(2);
    assert_eq!(rt; disk.size()?, 3);
    assert_eq!(rt; disk.write_at(0, b"z"), Err(DiskError::Failed));
    assert!(rt; gives(&mut disk, b"abc")?);
    Ok(())
}

#[test]
fn a_failed_write_is_made(rt: HostRuntime) -> Result<(), Fail> {
    let mut disk = WornDisk::new(rt.alloc())?;
    disk.write_at(0, b"ab")?;
    disk.sync()?;
    disk.fail_at(2);
    assert_eq!(rt; disk.size()?, 2);
    assert_eq!(rt; disk.write_at(2, b"c"), Err(DiskError::Failed));
    assert!(rt; gives(&mut disk, b"abc")?);
    let mut kept = disk.crash(true);
    kept.fail_at(1);
    assert_eq!(rt; kept.cut(1), Err(DiskError::Failed));
    assert!(rt; gives(&mut kept, b"a")?);
    let mut lost = kept.crash(false);
    assert!(rt; gives(&mut lost, b"abc")?);
    lost.fail_at(1);
    assert_eq!(rt; lost.sync(), Err(DiskError::Failed));
    Ok(())
}

#[test]
fn a_file_keeps_what_was_written(rt: HostRuntime) -> Result<(), Fail> {
    let mut disk = FileDisk::open(&rt, "disk-of-a-test")?;
    disk.cut(0)?;
    disk.write_at(0, b"abcd")?;
    disk.cut(3)?;
    disk.sync()?;
    assert_eq!(rt; disk.size()?, 3);
    let mut piece = [9u8; 4];
    assert_eq!(rt; disk.read_at(1, &mut piece)?, 2);
    assert_eq!(rt; piece, [b'b', b'c', 9, 9]);
    std::fs::remove_file(&rt, "disk-of-a-test")?;
    Ok(())
}

#[test]
fn a_server_has_its_file(rt: HostRuntime) -> Result<(), Fail> {
    let who = ServerId { site: 6, index: 6 };
    let mut files = FileDisks::new(rt.clone()?);
    let mut disk = files.take(who)?;
    disk.cut(0)?;
    disk.write_at(0, b"abc")?;
    files.back(who, disk);
    let mut again = files.take(who)?;
    assert_eq!(rt; again.size()?, 3);
    std::fs::remove_file(&rt, "journal-6-6")?;
    Ok(())
}

/// The first bytes of a server's disk, up to eight, after "abc" was written into it.
fn kept_by<R: Disks>(rack: &mut R, who: ServerId, piece: &mut [u8]) -> Result<usize, DiskError> {
    let mut disk = rack.take(who)?;
    let written = disk.write_at(0, b"abc");
    rack.back(who, disk);
    written?;
    let mut again = rack.take(who)?;
    let got = again.read_at(0, piece);
    rack.back(who, again);
    got
}

/// Whether a take of this server's disk fails.
fn fails<R: Disks>(rack: &mut R, who: ServerId) -> bool {
    matches!(rack.take(who), Err(DiskError::Failed))
}

#[test]
fn a_rack_keeps_what_was_written(rt: HostRuntime) -> Result<(), Fail> {
    let who = ServerId { site: 1, index: 3 };
    let mut rack = MemoryDisks::new(rt.alloc(), 2, 1, &[2])?;
    let mut piece = [9u8; 8];
    assert_eq!(rt; kept_by(&mut rack, who, &mut piece)?, 3);
    assert_eq!(rt; &piece[..3], b"abc".as_slice());
    assert!(rt; fails(&mut rack, who));
    assert!(rt; fails(&mut rack, ServerId { site: 2, index: 0 }));
    assert!(rt; fails(&mut rack, ServerId { site: 0, index: 4 }));
    let mut disk = rack.take(who)?;
    disk.fail_at(1);
    assert_eq!(rt; disk.size(), Err(DiskError::Failed));
    rack.back(who, disk);
    let mut again = rack.take(who)?;
    assert_eq!(rt; again.size()?, 3);
    assert!(rt; fails(&mut rack, who));
    Ok(())
}

#[test]
fn a_disk_is_put_in_its_place(rt: HostRuntime) -> Result<(), Fail> {
    let who = ServerId { site: 0, index: 0 };
    let mut rack = MemoryDisks::new(rt.alloc(), 1, 0, &[])?;
    let mut disk = MemoryDisk::new(rt.alloc())?;
    disk.write_at(0, b"xyz")?;
    rack.put(who, disk);
    let mut taken = rack.take(who)?;
    assert!(rt; gives(&mut taken, b"xyz")?);
    Ok(())
}
