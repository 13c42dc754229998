//! Sizes, headings and pages, which are written and read. A row is a word, a blank and cells with a blank between them.
//! In a page and in a member's name each `%XX` is a byte.
//!
//!     size NUMBER                 what `display_size` shows of so many bytes
//!     read PAGE                   `none`, or `=` and the rows of the page behind each other with `;` between them:
//!                                 path, name, date and size with a blank between them, of which blanks, `;` and `%`
//!                                 are written as `%XX`
//!     heading PREFIX PATH         what `display_path` shows of a path
//!     page PREFIX PATH MEMBERS    the texts of the page of a directory, with a blank between them, written so as well
//!     back PREFIX PATH MEMBERS    what `read` says of these texts joined, which are `no text` where they aren't UTF-8
//!
//! A prefix is `-` where there is none. Members have `;` between them and are `-` where there are none; each is its
//! kind (`d`, `f` or `l`), its length, its time in seconds since 1970 or `-`, and its name, with `,` between them.
//! Where there is no such path the answer is `no path`, and where a name isn't plain `no member`.

use dav_core::{DavPath, FileTime, Kind, Member};
use dav_io::{NoMemory, Octets, Text};
use dav_page::{PageRow, display_path, display_size, has_plain_names, index_page, read_page};
use dav_rows::{Line, text_of};
use percent_encoding::CONTROLS;
use std::alloc::{AllocError, Global};

// Adds bytes as a cell spells them.
fn add_escaped(line: &mut Line, bytes: &[u8]) {
    line.add_bytes(bytes, CONTROLS.add(b'%').add(b' ').add(b';'));
}

fn add(line: &mut Line, text: &Text) {
    add_escaped(line, text.as_slice());
}

fn add_row(line: &mut Line, row: &PageRow) {
    add(line, &row.path);
    line.add(" ");
    add(line, &row.name);
    line.add(" ");
    add(line, &row.date);
    line.add(" ");
    add(line, &row.size);
}

fn add_rows(line: &mut Line, rows: &[PageRow]) {
    line.add("=");
    for (i, row) in rows.iter().enumerate() {
        if i > 0 {
            line.add(";");
        }
        add_row(line, row);
    }
}

fn read(alloc: Global, line: &mut Line, page: &str) {
    match read_page(alloc, page) {
        Ok(Some(rows)) => add_rows(line, rows.as_slice()),
        Ok(None) => line.add("none"),
        Err(_) => line.refuse(),
    }
}

fn read_cell(alloc: Global, line: &mut Line, cell: &str) {
    match text_of(alloc, cell) {
        Ok(page) => read(alloc, line, page.as_str()),
        Err(_) => line.refuse(),
    }
}

fn add_shown(line: &mut Line, shown: Result<Text, NoMemory>) {
    match shown {
        Ok(text) => line.add(text.as_str()),
        Err(_) => line.refuse(),
    }
}

fn size(alloc: Global, line: &mut Line, cell: &str) {
    match cell.parse::<u64>() {
        Ok(size) => add_shown(line, display_size(alloc, size)),
        Err(_) => line.add("no number"),
    }
}

fn path_of(alloc: Global, prefix: &str, path: &str) -> Option<DavPath> {
    let prefix = if prefix == "-" { "" } else { prefix };
    DavPath::from_str_and_prefix(alloc, path, prefix).ok()
}

fn kind_of(word: &str) -> Kind {
    match word {
        "d" => Kind::Dir,
        "l" => Kind::Link,
        _ => Kind::File,
    }
}

fn time_of(word: &str) -> Option<FileTime> {
    match word.parse::<i64>() {
        Ok(secs) => Some(FileTime { secs, nanos: 0 }),
        Err(_) => None,
    }
}

fn member_of(alloc: Global, cell: &str) -> Result<Member, NoMemory> {
    let mut cells = cell.splitn(4, ',');
    let kind = kind_of(cells.next().unwrap_or(""));
    let len = cells.next().unwrap_or("").parse::<u64>().unwrap_or(0);
    let modified = time_of(cells.next().unwrap_or(""));
    let name = Text::new(text_of(alloc, cells.next().unwrap_or(""))?);
    Ok(Member {
        name,
        kind,
        len,
        modified,
    })
}

fn members_of(alloc: Global, cell: &str) -> Result<Vec<Member>, NoMemory> {
    let mut members = Vec::new(alloc);
    if cell == "-" {
        return Ok(members);
    }
    for member in cell.split(';') {
        members.push(member_of(alloc, member)?)?;
    }
    Ok(members)
}

// Adds texts as `page` spells them.
fn spell(line: &mut Line, texts: &[Octets]) {
    for (i, text) in texts.iter().enumerate() {
        if i > 0 {
            line.add(" ");
        }
        add_escaped(line, text.as_slice());
    }
}

fn joined(alloc: Global, texts: &[Octets]) -> Result<Vec<u8>, AllocError> {
    let mut page = Vec::new(alloc);
    for text in texts {
        page.extend_from_slice(text.as_slice())?;
    }
    Ok(page)
}

// Adds what a reader takes from the texts joined.
fn read_back(alloc: Global, line: &mut Line, texts: &[Octets]) {
    match joined(alloc, texts) {
        Ok(page) => match str::from_utf8(page.as_slice()) {
            Ok(page) => read(alloc, line, page),
            Err(_) => line.add("no text"),
        },
        Err(_) => line.refuse(),
    }
}

fn write(
    alloc: Global,
    dir: &DavPath,
    members: Vec<Member>,
) -> Result<Option<Vec<Octets>>, NoMemory> {
    if !has_plain_names(members.as_slice()) {
        return Ok(None);
    }
    index_page(alloc, dir, members).map(Some)
}

fn page(alloc: Global, line: &mut Line, dir: &DavPath, cell: &str, back: bool) {
    match members_of(alloc, cell) {
        Ok(members) => match write(alloc, dir, members) {
            Ok(Some(texts)) if back => read_back(alloc, line, texts.as_slice()),
            Ok(Some(texts)) => spell(line, texts.as_slice()),
            Ok(None) => line.add("no member"),
            Err(_) => line.refuse(),
        },
        Err(_) => line.refuse(),
    }
}

// A heading, or a page.
fn of_path(alloc: Global, line: &mut Line, word: &str, cells: &str) {
    let mut cells = cells.splitn(3, ' ');
    let prefix = cells.next().unwrap_or("");
    let path = path_of(alloc, prefix, cells.next().unwrap_or(""));
    let members = cells.next().unwrap_or("");
    match path {
        Some(path) if word == "heading" => add_shown(line, display_path(alloc, &path)),
        Some(path) => page(alloc, line, &path, members, word == "back"),
        None => line.add("no path"),
    }
}

/// Adds the answer to a row of this word, or says that there is no such row.
pub fn answer(alloc: Global, line: &mut Line, word: &str, cell: &str) -> bool {
    match word {
        "size" => size(alloc, line, cell),
        "read" => read_cell(alloc, line, cell),
        "heading" | "page" | "back" => of_path(alloc, line, word, cell),
        _ => return false,
    }
    true
}
