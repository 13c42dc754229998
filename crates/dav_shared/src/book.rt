ghost use Rattle.std.specs.Prelude.{◌≡◌, ℕ, List, Option};
ghost use Rattle.dav_memory.specs.Trees.{Name, Names, FileTime as Time};
ghost use Rattle.dav_shared.specs.Books as books;

/// What is told of folders: for a folder's number, a directory and a time, the directory's names that begin with `._`,
/// where they are told.
pub trait Book {
    ghost names: { ℕ → Names → Time → Option (List Name) };
}

/// It tells nothing.
#[derive(Clone, Copy, Debug)]
pub struct UntoldBook;

impl Book for UntoldBook {
    ghost names = { books.untold };
}

/// Of folder 1 it tells that the root at time 0 has no such name, and that `/d` at 1 s has `._a`.
#[derive(Clone, Copy, Debug)]
pub struct OneBook;

impl Book for OneBook {
    ghost names = { books.one_book };
}
