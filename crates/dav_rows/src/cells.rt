//! The cells of a row, in which each `%XX` is a byte.
use dav_io::NoMemory;
use percent_encoding::percent_decode;
use std::alloc::Global;

/// The bytes that a cell spells. They may be refused for want of memory.
pub fn bytes_of(alloc: Global, cell: &str) -> Result<Vec<u8>, NoMemory> {
    let mut bytes = Vec::new(alloc);
    percent_decode(cell.as_bytes()).append_to(&mut bytes)?;
    Ok(bytes)
}

/// The text of a cell. Bytes that are none give an empty one. It may be refused for want of memory.
pub fn text_of(alloc: Global, cell: &str) -> Result<String, NoMemory> {
    match String::from_utf8(bytes_of(alloc, cell)?) {
        Ok(text) => Ok(text),
        Err(_) => Ok(String::new(alloc)),
    }
}
