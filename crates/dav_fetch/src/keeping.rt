// The files that a copy has, met in the order of the paths that are asked.
ghost use Rattle.std.specs.Prelude.{◌≡◌, ◌<◌, ◌≤◌, ◌+◌, ◌++◌, length, reverse, vec_len, vec_capacity};
ghost use Rattle.std.specs.Option.{option_to_list};
ghost use Rattle.dav_fetch.specs.Fetching.{kept_at, kept_of};
ghost use Rattle.dav_fetch.specs.Keeping.{AreAscending, AreInOrder, KeepsBehind};

use crate::copied::Kept;
use crate::ordering::path_order;
use dav_core::FsPath;
use std::cmp::Ordering;

// What is kept of the file at a path. Files stand in order, the first of them last; those up to this path are taken away.
pub(crate) fn next_kept(rest: &mut Vec<Kept>, path: &FsPath) -> Option<Kept>
    requires { AreInOrder (reverse rest.old.items) }
    ensures found { result ≡ kept_at path.now (reverse rest.old.items) }
    ensures behind { KeepsBehind path.now (reverse rest.old.items) (reverse rest.new.items) }
    ensures order { AreInOrder (reverse rest.new.items) }
{
    while let Some(next) = rest.last() {
        match path_order(&next.path, path) {
            Ordering::Less => {
                let _earlier = rest.pop();
            }
            Ordering::Equal => return rest.pop(),
            Ordering::Greater => return None,
        }
    }
    None
}

// Adds what is kept of a file to the others, where there is room for it.
pub(crate) fn push_kept(files: &mut Vec<Kept>, kept: Option<Kept>)
    requires { vec_len files.old < vec_capacity files.old }
    ensures items { files.new.items ≡ files.old.items ++ option_to_list kept }
    ensures len { vec_len files.new ≤ vec_len files.old + 1 }
    ensures capacity { vec_capacity files.new ≡ vec_capacity files.old }
{
    if let Some(file) = kept {
        files.push_reserved(file);
    }
}

// Keeps what is kept of the files at these paths.
pub(crate) fn keep_rest(mut rest: Vec<Kept>, paths: &[FsPath], files: &mut Vec<Kept>)
    requires order { AreInOrder (reverse rest.items) }
    requires paths { AreAscending paths.now }
    requires room { vec_len files.old + length paths.now ≤ vec_capacity files.old }
    ensures { files.new.items ≡ files.old.items ++ kept_of paths.now (reverse rest.items) }
{
    for path in paths {
        let kept = next_kept(&mut rest, path);
        push_kept(files, kept);
    }
}
