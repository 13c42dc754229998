//! Texts of rows.
use dav_io::{Field, FieldValue, NoMemory, Octets, Text};
use dav_rows::Line;
use percent_encoding::{CONTROLS, percent_decode};
use std::alloc::Global;

// A longer text is shown by its two ends.
const LONG: usize = 200;

const END: usize = 20;

// Appends the bytes of a cell.
fn add_cell(bytes: &mut Vec<u8>, cell: &str) -> Result<(), NoMemory> {
    match cell.split_once('*') {
        Some((count, text)) => {
            for _ in 0..count.parse::<usize>().unwrap_or(0) {
                percent_decode(text.as_bytes()).append_to(bytes)?;
            }
        }
        None => percent_decode(cell.as_bytes()).append_to(bytes)?,
    }
    Ok(())
}

/// The bytes of a cell.
pub fn bytes_of(alloc: Global, cell: &str) -> Result<Vec<u8>, NoMemory> {
    let mut bytes = Vec::new(alloc);
    add_cell(&mut bytes, cell)?;
    Ok(bytes)
}

/// The bytes of a row's cells behind so many, one after the other.
pub fn joined_of(alloc: Global, row: &str, before: usize) -> Result<Octets, NoMemory> {
    let mut bytes = Vec::new(alloc);
    for cell in row.split(' ').skip(before) {
        add_cell(&mut bytes, cell)?;
    }
    Ok(Octets::new(bytes))
}

fn field_of(alloc: Global, cell: &str) -> Result<Field, NoMemory> {
    let (name, value) = cell.split_once(':').unwrap_or((cell, ""));
    let value = FieldValue::copy(alloc, bytes_of(alloc, value)?.as_slice())?;
    let name = Text::copy(alloc, name)?;
    Ok(Field { name, value })
}

fn add_field(alloc: Global, fields: &mut Vec<Field>, cell: &str) -> Result<(), NoMemory> {
    let field = field_of(alloc, cell)?;
    fields.push(field)?;
    Ok(())
}

fn add_fields(
    alloc: Global,
    fields: &mut Vec<Field>,
    row: &str,
    before: usize,
) -> Result<(), NoMemory> {
    for cell in row.split(' ').skip(before) {
        add_field(alloc, fields, cell)?;
    }
    Ok(())
}

/// The fields of a row, behind so many cells.
pub fn fields_of(alloc: Global, row: &str, before: usize) -> Result<Vec<Field>, NoMemory> {
    let mut fields = Vec::new(alloc);
    match add_fields(alloc, &mut fields, row, before) {
        Ok(()) => Ok(fields),
        Err(error) => Err(error),
    }
}

/// Adds bytes as a cell spells them.
pub fn show(line: &mut Line, bytes: &[u8]) {
    line.add_bytes(bytes, CONTROLS.add(b'%'));
}

/// Adds bytes as a cell spells them; of many bytes the two ends, and between them their number.
pub fn show_ends(line: &mut Line, bytes: &[u8]) {
    if bytes.len() <= LONG {
        show(line, bytes);
        return;
    }
    show(line, &bytes[..END]);
    line.add_number("..", bytes.len() as u64);
    line.add("..");
    show(line, &bytes[bytes.len() - END..]);
}
