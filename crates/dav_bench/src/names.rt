// The names of the large input.
ghost use Rattle.std.specs.Prelude.{◌≡◌, IfOk, string_bytes};
ghost use Rattle.dav_bench.specs.Names.{dir_path as the_dir_path, file_path as the_file_path, target as the_target};

use dav_core::FsPath;
use dav_io::{NoMemory, Text};
use std::alloc::Global;

// The path of directory i.
pub fn dir_path(alloc: Global, i: u64) -> Result<FsPath, NoMemory>
    ensures { IfOk result (λ path. path ≡ the_dir_path i) }
{
    let dir = Text::new(format!(in alloc; "Dir{i}")?);
    let names = vec![in alloc; dir]?;
    Ok(FsPath::new(names))
}

// The path of file j of directory i.
pub fn file_path(alloc: Global, i: u64, j: u64) -> Result<FsPath, NoMemory>
    ensures { IfOk result (λ path. path ≡ the_file_path i j) }
{
    let dir = Text::new(format!(in alloc; "Dir{i}")?);
    let file = Text::new(format!(in alloc; "File{j}")?);
    let names = vec![in alloc; dir, file]?;
    Ok(FsPath::new(names))
}

// The text by which that file is asked for.
pub fn target(alloc: Global, i: u64, j: u64) -> Result<String, NoMemory>
    ensures { IfOk result (λ text. string_bytes text ≡ the_target i j) }
{
    Ok(format!(in alloc; "/dir{i}/file{j}")?)
}
