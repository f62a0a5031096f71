use st_disk::{Disk, MemoryDisk, WornDisk};
use st_journal::*;
use std::alloc::Global;
use std::fmt::Debug;
use std::test::*;

type Started = (Journal<MemoryDisk>, Bodies);

/// A disk that holds these bytes.
fn held(alloc: Global, bytes: &[u8]) -> Result<MemoryDisk, Fail> {
    let mut disk = MemoryDisk::new(alloc)?;
    disk.write_at(0, bytes)?;
    Ok(disk)
}

/// A journal of at most 40 bytes on a disk that holds these bytes.
fn started(alloc: Global, bytes: &[u8]) -> Result<Started, Fail> {
    let disk = held(alloc, bytes)?;
    Ok(Journal::start(alloc, disk, 40)?)
}

/// How long the file of a journal is.
fn size(journal: Journal<MemoryDisk>) -> Result<u64, Fail> {
    let mut disk = journal.into_disk();
    Ok(disk.size()?)
}

#[test]
fn a_journal_ends_at_its_limit(rt: HostRuntime) -> Result<(), Fail> {
    let alloc = rt.alloc();
    let (journal, bodies) = started(alloc, b"")?;
    assert!(rt; bodies.is_empty());
    assert_eq!(rt; size(journal)?, 9);
    let (mut journal, _) = started(alloc, b"")?;
    assert_eq!(rt;
        journal.append(alloc, &[7; 27]),
        Err(JournalError::Full { bytes: 41 })
    );
    assert_eq!(rt; size(journal)?, 9);
    let (mut journal, _) = started(alloc, b"")?;
    journal.append(alloc, &[7; 26])?;
    assert_eq!(rt; size(journal)?, 40);
    Ok(())
}

/// The place of the fault of a file that is no journal.
fn fault(alloc: Global, bytes: &[u8]) -> Result<Option<u64>, Fail> {
    let disk = held(alloc, bytes)?;
    match Journal::start(alloc, disk, 40) {
        Err(
            NotStarted {
                error: JournalError::NotJournal { place },
                disk: _,
            },
        ) => Ok(Some(place)),
        _ => Ok(None),
    }
}

#[test]
fn a_file_that_is_no_journal_is_refused(rt: HostRuntime) -> Result<(), Fail> {
    let alloc = rt.alloc();
    assert_eq!(rt; fault(alloc, &[0; 10])?, Some(0));
    assert_eq!(rt; fault(alloc, b"STJRNL01\x01\0\0\0\x01x")?, Some(8));
    assert_eq!(rt;
        fault(alloc, b"STJRNL01\x01\0\0\0\x01x\x02\xff\xff\xff\xff")?,
        Some(14)
    );
    assert_eq!(rt; fault(alloc, b"STJRNL01\0junk")?, None);
    Ok(())
}

#[test]
fn what_stands_behind_the_gate_is_cut_off(rt: HostRuntime) -> Result<(), Fail> {
    let (journal, bodies) = started(rt.alloc(), b"STJRNL01\x07\0\0\0\x01x\0junk")?;
    assert_eq!(rt; bodies.len(), 1);
    assert_eq!(rt; size(journal)?, 15);
    Ok(())
}

/// The disk after a start on it.
fn restarted<D: Disk>(alloc: Global, disk: D) -> D {
    match Journal::start(alloc, disk, 40) {
        Ok((journal, _bodies)) => journal.into_disk(),
        Err(
            NotStarted {
                error: _error,
                disk,
            },
        ) => disk,
    }
}

/// A disk after appends of b and c to this journal, and a start.
fn appended<D: Disk>(alloc: Global, journal: Journal<D>) -> D {
    let mut journal = journal;
    let appended = journal.append(alloc, b"b").is_ok() && journal.append(alloc, b"c").is_ok();
    let disk = journal.into_disk();
    if appended {
        return restarted(alloc, disk);
    }
    disk
}

/// How many bodies a start on this disk answers.
fn count<D: Disk + Debug>(alloc: Global, disk: D) -> Result<usize, Fail> {
    let (_journal, bodies) = Journal::start(alloc, disk, 40)?;
    Ok(bodies.len())
}

/// How many of the bodies a, b and c are there after a crash, where the `k`-th device call of the appends
/// of b and c behind a and of a start failed, and changed nothing.
fn survivors(alloc: Global, k: u32, kept: bool) -> Result<usize, Fail> {
    let (mut journal, _bodies) = started(alloc, b"")?;
    journal.append(alloc, b"a")?;
    journal.fail_at(k.max(1));
    count(alloc, appended(alloc, journal).crash(kept))
}

#[test]
fn each_failing_call_leaves_a_journal(rt: HostRuntime) -> Result<(), Fail> {
    for k in 1..13 {
        let lost = match k {
            1..=4 => 1,
            5..=8 => 2,
            _ => 3,
        };
        let kept = match k {
            1..=3 => 1,
            4..=7 => 2,
            _ => 3,
        };
        assert_eq!(rt; survivors(rt.alloc(), k, false)?, lost);
        assert_eq!(rt; survivors(rt.alloc(), k, true)?, kept);
    }
    Ok(())
}

/// How many device calls a start on an empty disk and one append are.
const FIRST_CALLS: u32 = 11;

/// The same, where the failing call is made if it is a write or a cut.
fn survivors_of_worn(alloc: Global, k: u32, kept: bool) -> Result<usize, Fail> {
    let mut disk = WornDisk::new(alloc)?;
    disk.fail_at(FIRST_CALLS.saturating_add(k));
    let (mut journal, _bodies) = Journal::start(alloc, disk, 40)?;
    journal.append(alloc, b"a")?;
    count(alloc, appended(alloc, journal).crash(kept))
}

#[test]
fn each_failing_call_that_is_made_leaves_a_journal(rt: HostRuntime) -> Result<(), Fail> {
    for k in 1..13 {
        let lost = match k {
            1..=4 => 1,
            5..=8 => 2,
            _ => 3,
        };
        let kept = match k {
            1..=2 => 1,
            3..=6 => 2,
            _ => 3,
        };
        assert_eq!(rt; survivors_of_worn(rt.alloc(), k, false)?, lost);
        assert_eq!(rt; survivors_of_worn(rt.alloc(), k, true)?, kept);
    }
    Ok(())
}

/// The bodies that a start answers after a crash of that disk, one behind another.
fn bodies_after(alloc: Global, disk: MemoryDisk, kept: bool) -> Result<Vec<u8>, Fail> {
    let (_journal, bodies) = Journal::start(alloc, disk.crash(kept), 40)?;
    let mut all = Vec::new(alloc);
    for body in bodies.as_slice() {
        all.extend_from_slice(body.as_slice())?;
    }
    Ok(all)
}

#[test]
fn a_last_sync_that_fails_loses_or_keeps_the_body(rt: HostRuntime) -> Result<(), Fail> {
    let alloc = rt.alloc();
    for kept in [false, true] {
        let (mut journal, _bodies) = started(alloc, b"")?;
        journal.append(alloc, b"a")?;
        journal.fail_at(4);
        assert_eq!(rt; journal.append(alloc, b"b"), Err(JournalError::DiskFault));
        let bodies = bodies_after(alloc, journal.into_disk(), kept)?;
        let want = if kept {
            b"ab".as_slice()
        } else {
            b"a".as_slice()
        };
        assert_eq!(rt; bodies.as_slice(), want);
    }
    Ok(())
}
