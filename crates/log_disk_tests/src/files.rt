//! A real file, which no clause can speak of.

ghost use Rattle.std.specs.Prelude.{◌≡◌, ◌<◌, ◌≤◌, []};

use log_disk::{DiskRefusal, Failed, FileDisk, LogDisk, LogEye, MakeFault};
use std::fs::{self, File};
use std::test::Fail;

// The path of a file of this run, which is not there yet.
fn fresh_path(rt: &HostRuntime, name: &str) -> Result<String, Fail> {
    let temp = std::env::temp_dir(rt)?;
    let process = std::process::id(rt.process());
    let path = format!(in rt.alloc(); "{}/log_disk_{name}_{process}", temp.as_str())?;
    Ok(path)
}

// Writes a byte at the end of each region.
fn write_all(disk: &mut FileDisk<HostRuntime>) -> Result<(), DiskRefusal>
    requires { (disk.old.disk.regions ≡ 4) × (disk.old.disk.region_len ≡ 8) × (disk.old.disk.eyes ≡ []) }
{
    for region in 0..4u32 {
        disk.write(region, 7, &[region as u8 + 1])?;
    }
    disk.sync()?;
    Ok(())
}

// Makes a disk and writes a byte at the end of each region.
fn write_ends(rt: &HostRuntime, path: &str) -> Result<(), Fail> {
    let mut disk = FileDisk::make(rt, rt.alloc(), path, 4, 8)?;
    Ok(write_all(&mut disk)?)
}

// What becomes of a file whose disk is open.
#[derive(Drop)]
enum Fate {
    Stays,
    Cut,
    Gone,
}

fn meet(rt: &HostRuntime, path: &str, fate: Fate) -> Result<(), Fail> {
    match fate {
        Fate::Stays => {}
        // A file that is created anew has no bytes.
        Fate::Cut => drop(File::create(rt, path)?),
        Fate::Gone => fs::remove_file(rt, path)?,
    }
    Ok(())
}

// Reads two bytes of a region by a disk.
fn read(disk: &mut FileDisk<HostRuntime>, region: u32, at: u64) -> Result<[u8; 2], Failed>
    requires there { (region < 4) × (at ≤ 6) }
    requires made { (disk.old.disk.regions ≡ 4) × (disk.old.disk.region_len ≡ 8) × (disk.old.disk.unsynced ≡ []) }
    ensures { (disk.new.disk.regions ≡ 4) × (disk.new.disk.region_len ≡ 8) × (disk.new.disk.unsynced ≡ []) }
{
    let mut bytes = [9u8; 2];
    disk.read(region, at, &mut bytes)?;
    Ok(bytes)
}

// Reads the same by an eye.
fn look(disk: &mut FileDisk<HostRuntime>, region: u32, at: u64) -> Result<[u8; 2], DiskRefusal>
    requires there { (region < 4) × (at ≤ 6) }
    requires made { (disk.old.disk.regions ≡ 4) × (disk.old.disk.region_len ≡ 8) × (disk.old.disk.unsynced ≡ []) }
    ensures { (disk.new.disk.regions ≡ 4) × (disk.new.disk.region_len ≡ 8) × (disk.new.disk.unsynced ≡ []) }
{
    let mut bytes = [9u8; 2];
    let mut eye = disk.eye(&[region])?;
    let read = eye.read(region, at, &mut bytes);
    disk.close(eye);
    read?;
    Ok(bytes)
}

// What is read by a disk and by an eye.
type Seen = (Result<[u8; 2], Failed>, Result<[u8; 2], DiskRefusal>);

// Opens the disk again, and reads two bytes of a region once its file met its fate.
fn read_again(rt: &HostRuntime, path: &str, fate: Fate, region: u32, at: u64) -> Result<Seen, Fail>
    requires { (region < 4) × (at ≤ 6) }
{
    let mut disk = FileDisk::make(rt, rt.alloc(), path, 4, 8)?;
    meet(rt, path, fate)?;
    let by_disk = read(&mut disk, region, at);
    let by_eye = look(&mut disk, region, at);
    Ok((by_disk, by_eye))
}

#[test]
fn a_file_is_made_and_opened_again(rt: HostRuntime) -> Result<(), Fail> {
    let path = fresh_path(&rt, "made")?;
    write_ends(&rt, path.as_str())?;
    for k in 0..8u32 {
        let region = k / 2;
        let (at, last) = if k % 2 == 0 {
            (0, 0)
        } else {
            (6, region as u8 + 1)
        };
        let seen = read_again(&rt, path.as_str(), Fate::Stays, region, at)?;
        assert_eq!(rt;
            seen,
            (Ok([0, last]), Ok([0, last])),
            "region {region}, from {at}"
        );
    }
    fs::remove_file(&rt, path.as_str())?;
    Ok(())
}

// The length that a fault tells, or the fault as that of a call.
fn length_in(fault: MakeFault) -> Result<Option<u64>, DiskRefusal> {
    match fault {
        MakeFault::WrongLength { found, .. } => Ok(Some(found)),
        MakeFault::Failed { .. } => Err(DiskRefusal::Failed),
        MakeFault::NoMemory => Err(DiskRefusal::NoMemory),
    }
}

// The length that a disk of four regions finds wrong, or None where it finds it right.
fn wrong_length(rt: &HostRuntime, path: &str, region_len: u64) -> Result<Option<u64>, DiskRefusal>
    requires { region_len < 100 }
{
    match FileDisk::make(rt, rt.alloc(), path, 4, region_len) {
        Ok(_) => Ok(None),
        Err(fault) => length_in(fault),
    }
}

#[test]
fn a_file_of_another_length_is_refused_and_stays(rt: HostRuntime) -> Result<(), Fail> {
    let path = fresh_path(&rt, "length")?;
    // An absent file is made, and then it is too short, too long, and right.
    let found = [
        wrong_length(&rt, path.as_str(), 8),
        wrong_length(&rt, path.as_str(), 9),
        wrong_length(&rt, path.as_str(), 7),
        wrong_length(&rt, path.as_str(), 8),
    ];
    assert_eq!(rt; found, [Ok(None), Ok(Some(32)), Ok(Some(32)), Ok(None)]);
    fs::remove_file(&rt, path.as_str())?;
    Ok(())
}

// What two more disks find while a file has one. The lock is asked for before the length.
fn found_by_others(
    rt: &HostRuntime,
    path: &str,
) -> Result<[Result<Option<u64>, DiskRefusal>; 2], Fail> {
    let first = FileDisk::make(rt, rt.alloc(), path, 4, 8)?;
    let found = [wrong_length(rt, path, 8), wrong_length(rt, path, 9)];
    drop(first);
    Ok(found)
}

#[test]
fn a_file_has_one_disk_at_a_time(rt: HostRuntime) -> Result<(), Fail> {
    let path = fresh_path(&rt, "locked")?;
    let found = found_by_others(&rt, path.as_str())?;
    assert_eq!(rt; found, [Err(DiskRefusal::Failed), Err(DiskRefusal::Failed)]);
    assert_eq!(rt; wrong_length(&rt, path.as_str(), 8), Ok(None));
    fs::remove_file(&rt, path.as_str())?;
    Ok(())
}

#[test]
fn no_file_is_made_in_a_missing_folder(rt: HostRuntime) -> Result<(), Fail> {
    let path = fresh_path(&rt, "missing/log")?;
    assert_eq!(rt;
        wrong_length(&rt, path.as_str(), 8),
        Err(DiskRefusal::Failed)
    );
    Ok(())
}

#[test]
fn no_eye_is_opened_once_the_file_is_gone(rt: HostRuntime) -> Result<(), Fail> {
    let path = fresh_path(&rt, "gone")?;
    let seen = read_again(&rt, path.as_str(), Fate::Gone, 2, 0)?;
    assert_eq!(rt; seen, (Ok([0, 0]), Err(DiskRefusal::Failed)));
    Ok(())
}

// Opens an eye on each of two regions, and closes both.
fn open_two(disk: &mut FileDisk<HostRuntime>) -> Result<(), DiskRefusal>
    requires made { (disk.old.disk.regions ≡ 4) × (disk.old.disk.region_len ≡ 8) × (disk.old.disk.unsynced ≡ []) }
    ensures { (disk.new.disk.regions ≡ 4) × (disk.new.disk.region_len ≡ 8) × (disk.new.disk.unsynced ≡ []) }
{
    let first = disk.eye(&[1])?;
    let second = disk.eye(&[2])?;
    disk.close(first);
    disk.close(second);
    Ok(())
}

// How many eyes are opened at once before the path is gone.
#[derive(Drop)]
enum Before {
    One,
    Two,
}

// What an eye reads, and whether two at once are opened and what an eye reads then, once the path is gone.
type Left = (
    Result<[u8; 2], DiskRefusal>,
    Result<(), DiskRefusal>,
    Result<[u8; 2], DiskRefusal>,
);

fn seen_at_gone_path(rt: &HostRuntime, path: &str, before: Before) -> Result<Left, Fail> {
    let mut disk = FileDisk::make(rt, rt.alloc(), path, 4, 8)?;
    match before {
        Before::One => drop(look(&mut disk, 1, 0)?),
        Before::Two => open_two(&mut disk)?,
    }
    meet(rt, path, Fate::Gone)?;
    let by_one = look(&mut disk, 2, 6);
    let by_two = open_two(&mut disk);
    Ok((by_one, by_two, look(&mut disk, 3, 6)))
}

#[test]
fn an_eye_has_the_file_of_one_that_came_back(rt: HostRuntime) -> Result<(), Fail> {
    let path = fresh_path(&rt, "kept")?;
    write_ends(&rt, path.as_str())?;
    // One file is kept, which serves one eye at a time. It is closed where its eye does not come back.
    let left = seen_at_gone_path(&rt, path.as_str(), Before::One)?;
    let refused = DiskRefusal::Failed;
    assert_eq!(rt; left, (Ok([0, 3]), Err(refused), Err(DiskRefusal::Failed)));
    Ok(())
}

#[test]
fn two_eyes_at_once_have_files_of_their_own(rt: HostRuntime) -> Result<(), Fail> {
    let path = fresh_path(&rt, "two_kept")?;
    write_ends(&rt, path.as_str())?;
    let left = seen_at_gone_path(&rt, path.as_str(), Before::Two)?;
    assert_eq!(rt; left, (Ok([0, 3]), Ok(()), Ok([0, 4])));
    Ok(())
}

// Gives an eye of another disk back, if it has the number of an open eye. Tells whether it had.
fn close_other(
    disk: &mut FileDisk<HostRuntime>,
    other: &mut FileDisk<HostRuntime>,
) -> Result<bool, DiskRefusal>
    requires made { (disk.old.disk.regions ≡ 4) × (disk.old.disk.region_len ≡ 8) × (disk.old.disk.unsynced ≡ []) }
    requires other_made { (other.old.disk.regions ≡ 4) × (other.old.disk.unsynced ≡ []) }
    ensures { (disk.new.disk.regions ≡ 4) × (disk.new.disk.region_len ≡ 8) × (disk.new.disk.unsynced ≡ []) }
{
    let own = disk.eye(&[3])?;
    let stranger = other.eye(&[3])?;
    let is_alike = stranger.number() == own.number();
    if is_alike {
        disk.close(stranger);
    }
    Ok(is_alike)
}

// Whether an eye of a second disk was given back to a first one, and what an eye of the first one reads then.
fn seen_past_other(
    rt: &HostRuntime,
    path: &str,
    other_path: &str,
) -> Result<(bool, Result<[u8; 2], DiskRefusal>), Fail> {
    let mut disk = FileDisk::make(rt, rt.alloc(), path, 4, 8)?;
    let mut other = FileDisk::make(rt, rt.alloc(), other_path, 4, 8)?;
    let is_closed = close_other(&mut disk, &mut other)?;
    Ok((is_closed, look(&mut disk, 3, 6)))
}

#[test]
fn no_eye_has_the_file_of_another_disk(rt: HostRuntime) -> Result<(), Fail> {
    let path = fresh_path(&rt, "own")?;
    let other_path = fresh_path(&rt, "other")?;
    write_ends(&rt, path.as_str())?;
    // The other disk has zeros.
    let seen = seen_past_other(&rt, path.as_str(), other_path.as_str())?;
    assert_eq!(rt; seen, (true, Ok([0, 4])));
    fs::remove_file(&rt, path.as_str())?;
    fs::remove_file(&rt, other_path.as_str())?;
    Ok(())
}

#[test]
fn reads_past_a_file_that_was_cut_are_refused(rt: HostRuntime) -> Result<(), Fail> {
    let path = fresh_path(&rt, "cut")?;
    let seen = read_again(&rt, path.as_str(), Fate::Cut, 3, 0)?;
    assert_eq!(rt; seen, (Err(Failed), Err(DiskRefusal::Failed)));
    fs::remove_file(&rt, path.as_str())?;
    Ok(())
}
