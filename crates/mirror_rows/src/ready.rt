//! Replies that rows write.
use dav_fetch::{Canned, Got, Replies};
use dav_io::{Field, Fields, NoMemory, Octets, Text, add_field};
use dav_rows::{bytes_of, cell, text_of};
use std::alloc::Global;

// What stands before the rows of the page of a directory, and behind them.
const FRONT: &str =
    "<!DOCTYPE html>\n<html><head>\n<meta name=\"referrer\" content=\"no-referrer\" />\n<title>Index of /</title>\n<style>\ntable {\nborder-collapse: separate;\nborder-spacing: 1.5em 0.25em;\n}\nh1 {\npadding-left: 0.3em;\n}\na {\ntext-decoration: none;\ncolor: blue;\n}\n.left {\ntext-align: left;\n}\n.mono {\nfont-family: monospace;\n}\n.mw20 {\nmin-width: 20em;\n}\n</style>\n</head>\n<body>\n<h1>Index of /</h1><table>\n<tr>\n<th class=\"left mw20\">Name</th>\n<th class=\"left\">Last modified</th>\n<th>Size</th>\n</tr>\n<tr><th colspan=\"3\"><hr></th></tr>\n<tr>\n<td><a href=\"..\">Parent Directory</a></td>\n<td>&nbsp;</td>\n<td class=\"mono\" align=\"right\">[DIR]    </td>\n</tr>\n";

const END: &str = "<tr><th colspan=\"3\"><hr></th></tr></table></body></html>";

const BEHIND_LINK: &str =
    "\">n</a></td><td class=\"mono\"></td><td class=\"mono\" align=\"right\">[DIR]    </td></tr>";

/// The numbers of the calls that fail.
pub fn fails(alloc: Global, word: &str) -> Result<Vec<u64>, NoMemory> {
    let mut numbers = Vec::new(alloc);
    for number in word.split(',') {
        if let Ok(number) = number.parse::<u64>() {
            numbers.push(number)?;
        }
    }
    Ok(numbers)
}

// Adds so many of a byte, and no more than any row has.
fn add_many(bytes: &mut Vec<u8>, byte: u8, count: &str) -> Result<(), NoMemory> {
    for _ in 0..count.parse::<u32>().unwrap_or(0).min(20_000_000) {
        bytes.push(byte)?;
    }
    Ok(())
}

// Adds a link: `+COUNT+` is so many `n`.
fn add_link(bytes: &mut Vec<u8>, link: &str) -> Result<(), NoMemory> {
    let mut parts = link.splitn(3, '+');
    bytes.extend_from_slice(parts.next().unwrap_or("").as_bytes())?;
    add_many(bytes, b'n', parts.next().unwrap_or(""))?;
    bytes.extend_from_slice(parts.next().unwrap_or("").as_bytes())?;
    Ok(())
}

// The page with rows of these links.
fn page(alloc: Global, links: &str) -> Result<Vec<u8>, NoMemory> {
    let mut bytes = Vec::new(alloc);
    bytes.extend_from_slice(FRONT.as_bytes())?;
    for link in links.split(',') {
        if !link.is_empty() {
            bytes.extend_from_slice("<tr><td><a href=\"".as_bytes())?;
            add_link(&mut bytes, link)?;
            bytes.extend_from_slice(BEHIND_LINK.as_bytes())?;
        }
    }
    bytes.extend_from_slice(END.as_bytes())?;
    Ok(bytes)
}

/// The bytes of a body.
pub fn body(alloc: Global, text: &str) -> Result<Vec<u8>, NoMemory> {
    if let Some(links) = text.strip_prefix("@") {
        return page(alloc, links);
    }
    match text.strip_prefix("*") {
        Some(count) => {
            let mut bytes = Vec::new(alloc);
            add_many(&mut bytes, b'x', count)?;
            Ok(bytes)
        }
        None => bytes_of(alloc, text),
    }
}

fn fields(alloc: Global, text: &str) -> Result<Fields, NoMemory> {
    let mut fields: Vec<Field> = Vec::new(alloc);
    for field in text.split('&') {
        if let Some((name, value)) = field.split_once('=') {
            let name = Text::new(text_of(alloc, name)?);
            let value = bytes_of(alloc, value)?;
            add_field(&mut fields, name, value.as_slice())?;
        }
    }
    Ok(Fields::new(fields))
}

fn reply(alloc: Global, text: &str) -> Result<Canned, NoMemory> {
    let status = cell(text, 0).parse::<u16>().unwrap_or(0);
    let headers = fields(alloc, cell(text, 1))?;
    let body = Octets::new(body(alloc, cell(text, 2))?);
    Ok(Canned {
        got: Got { status, headers },
        body,
    })
}

/// The replies of a word.
pub fn replies(alloc: Global, word: &str) -> Result<Replies, NoMemory> {
    let mut all = Vec::new(alloc);
    for text in word.split(';') {
        if text != "-" {
            all.push(reply(alloc, text)?)?;
        }
    }
    Ok(Replies::new(all))
}
