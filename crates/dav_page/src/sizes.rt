ghost use Rattle.std.specs.Prelude.{◌≡◌, ◌≤◌, ◌<◌, ◌^◌, ◌++◌, IfOk, MatchOption, OnOk, codes, decimal, string_bytes};
ghost use Rattle.dav_page.specs.Pages.{IsAmount};
ghost use Rattle.dav_page.specs.Sizes.{amount, fraction, hundredths, scale, scale_of, shown_size};

use dav_io::{NoMemory, Text};
use itoa::Buffer;
use std::alloc::Global;

// The bytes and the name of the greatest unit that isn't above a size. None where it is the byte.
fn unit_of(size: u64) -> Option<(u64, &'static str)>
    ensures unit { MatchOption result (scale_of size ≡ scale 1 (codes "B")) (λ u. scale_of size ≡ scale u.0 u.1.now) }
    ensures least { MatchOption result (0 ≤ size) (λ u. 1024 ≤ u.0) }
    ensures most { MatchOption result (0 ≤ size) (λ u. u.0 ≤ 2 ^ 50) }
    ensures below { MatchOption result (0 ≤ size) (λ u. size < 2 ^ 60) }
{
    if size < 1 << 10 || size >= 1 << 60 {
        None
    } else if size < 1 << 20 {
        Some((1 << 10, "KiB"))
    } else if size < 1 << 30 {
        Some((1 << 20, "MiB"))
    } else if size < 1 << 40 {
        Some((1 << 30, "GiB"))
    } else if size < 1 << 50 {
        Some((1 << 40, "TiB"))
    } else {
        Some((1 << 50, "PiB"))
    }
}

// The quotient in hundredths, to the nearest. A half goes up.
fn quotient(size: u64, unit: u64) -> u64
    requires below { size < 2 ^ 60 }
    requires least { 1024 ≤ unit }
    requires most { unit ≤ 2 ^ 50 }
    ensures { result ≡ hundredths size unit }
{
    let whole = size / unit;
    let rest = size % unit;
    whole * 100 + (rest * 200 + unit) / (2 * unit)
}

// Appends a number in decimal.
fn push_number(text: &mut String, number: u64) -> Result<(), NoMemory>
    ensures { OnOk result (string_bytes text.new ≡ string_bytes text.old ++ decimal number) }
{
    let mut digits = Buffer::new();
    Ok(text.push_str(digits.format(number))?)
}

// Appends so many hundredths behind a point, without zeros at the end.
fn push_fraction(text: &mut String, hundredths: u64) -> Result<(), NoMemory>
    ensures { OnOk result (string_bytes text.new ≡ string_bytes text.old ++ fraction hundredths) }
{
    if hundredths == 0 {
        return Ok(());
    }
    text.push('.')?;
    push_number(text, hundredths / 10)?;
    if hundredths % 10 != 0 {
        push_number(text, hundredths % 10)?;
    }
    Ok(())
}

// Appends so many hundredths of a unit, without zeros at the end.
fn push_amount(text: &mut String, hundredths: u64, unit: &str) -> Result<(), NoMemory>
    ensures { OnOk result (string_bytes text.new ≡ string_bytes text.old ++ amount hundredths unit.now) }
{
    push_number(text, hundredths / 100)?;
    push_fraction(text, hundredths % 100)?;
    text.push(' ')?;
    Ok(text.push_str(unit)?)
}

// Appends a size of which the byte is the greatest unit that isn't above it.
fn push_bytes(text: &mut String, size: u64) -> Result<(), NoMemory>
    requires { scale_of size ≡ scale 1 (codes "B") }
    ensures { OnOk result (string_bytes text.new ≡ string_bytes text.old ++ shown_size size) }
{
    push_number(text, size)?;
    Ok(text.push_str(" B")?)
}

// Appends a size as `display_size` shows it.
pub(crate) fn push_size(text: &mut String, size: u64) -> Result<(), NoMemory>
    ensures value { OnOk result (string_bytes text.new ≡ string_bytes text.old ++ shown_size size) }
    ensures form { OnOk result (IsAmount (shown_size size)) }
{
    match unit_of(size) {
        Some((bytes, unit)) => push_amount(text, quotient(size, bytes), unit)?,
        None => push_bytes(text, size)?,
    }
    Ok(())
}

/// A size in bytes as index pages show it: from 1024 to below 2^60 in the greatest of KiB, MiB, GiB, TiB and PiB that
/// isn't above it, with up to two digits behind a point; else in bytes.
pub fn display_size(alloc: Global, size: u64) -> Result<Text, NoMemory>
    ensures value { IfOk result (λ text. text ≡ shown_size size) }
    ensures form { IfOk result IsAmount }
{
    let mut text = String::new(alloc);
    push_size(&mut text, size)?;
    Ok(Text::new(text))
}
