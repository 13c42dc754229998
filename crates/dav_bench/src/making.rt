// The disk of the large input.
ghost use Rattle.std.specs.Prelude.{◌≡◌, ◌<◌, ◌≤◌, IfOk, OnOk, ◌+◌, ◌*◌};
ghost use Rattle.dav_disk.specs.Sure.{listings_of, sure_world};
ghost use Rattle.dav_bench.specs.Making.{IsSoFar};
ghost use Rattle.dav_bench.specs.Tree.{IsBench, beginning as the_beginning, length_of as the_length};

use crate::names::{dir_path, file_path};
use dav_core::FileTime;
use dav_disk::SureDisk;
use dav_io::NoMemory;
use std::alloc::Global;

// The time of all that stands there.
fn beginning() -> FileTime
    ensures { result ≡ the_beginning }
{
    FileTime { secs: 0, nanos: 0 }
}

// How many bytes file j of directory i has.
fn length_of(i: u64, j: u64) -> usize
    requires i { i < 8 }
    requires j { j < 400 }
    ensures { result ≡ the_length i j }
{
    (10 * (i + 1) + j) as usize
}

// Makes the directories.
fn add_dirs(alloc: Global, disk: &mut SureDisk, m: u64) -> Result<(), NoMemory>
    requires { IsSoFar 0 m 0 0 (sure_world disk.old) }
    ensures made { OnOk result (IsSoFar 8 m 0 0 (sure_world disk.new)) }
    ensures listings { OnOk result (listings_of disk.new ≡ listings_of disk.old) }
{
    for i in 0..8u64 {
        let path = dir_path(alloc, i)?;
        disk.add_dir(&path, 2 + i, beginning())?;
    }
    Ok(())
}

// Makes file j of directory i.
fn add_file(alloc: Global, disk: &mut SureDisk, m: u64, i: u64, j: u64) -> Result<(), NoMemory>
    requires m { m ≤ 400 }
    requires i { i < 8 }
    requires j { j < m }
    requires before { IsSoFar 8 m i j (sure_world disk.old) }
    ensures made { OnOk result (IsSoFar 8 m i (j + 1) (sure_world disk.new)) }
    ensures listings { OnOk result (listings_of disk.new ≡ listings_of disk.old) }
{
    let path = file_path(alloc, i, j)?;
    let bytes = vec![in alloc; b'x'; length_of(i, j)]?;
    disk.add_file(&path, 10 + (i * m + j), beginning(), &bytes)
}

// Makes the files of directory i.
fn add_files(alloc: Global, disk: &mut SureDisk, m: u64, i: u64) -> Result<(), NoMemory>
    requires m { m ≤ 400 }
    requires i { i < 8 }
    requires before { IsSoFar 8 m i 0 (sure_world disk.old) }
    ensures made { OnOk result (IsSoFar 8 m (i + 1) 0 (sure_world disk.new)) }
    ensures listings { OnOk result (listings_of disk.new ≡ listings_of disk.old) }
{
    for j in 0..m {
        add_file(alloc, disk, m, i, j)?;
    }
    Ok(())
}

// A disk with eight directories of m files each.
pub fn make_disk(alloc: Global, m: u64) -> Result<SureDisk, NoMemory>
    requires { m ≤ 400 }
    ensures made { IfOk result (λ disk. IsBench m (sure_world disk)) }
    ensures listings { IfOk result (λ disk. listings_of disk ≡ 0) }
{
    let mut disk = SureDisk::new(alloc)?;
    add_dirs(alloc, &mut disk, m)?;
    for i in 0..8u64 {
        add_files(alloc, &mut disk, m, i)?;
    }
    Ok(disk)
}
