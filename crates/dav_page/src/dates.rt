// Dates and sizes as pages show them.
ghost use Rattle.std.specs.Prelude.{◌≡◌, ◌+◌, ◌/◌, ◌%◌, ◌<◌, ◌≤◌, ◌≤ℤ◌, ◌++◌, List, ℕ, OnOk, codes, pos, string_bytes};
ghost use Rattle.httpdate.specs.Text.{four_digits, two_digits};
ghost use Rattle.jiff_core.specs.Calendar.{IsCivilDate, days_from_civil};
ghost use Rattle.dav_core.specs.Info.{known};
ghost use Rattle.dav_page.specs.Listed.{IsDateOf, IsMinute, size_of};
ghost use Rattle.dav_page.specs.Pages as form;

use crate::literals::NO_SIZE;
use crate::sizes::push_size;
use dav_core::{FileTime, Kind, Member};
use dav_io::NoMemory;
use jiff_core::civil::Date;

// The days from -9999-01-01 to 1970-01-01.
const DAYS_TO_1970: u32 = 4_371_587;

// A year from 0 on.
fn natural(year: i16) -> u16
    requires { pos 0 ≤ℤ year }
    ensures { pos result ≡ year }
{
    year as u16
}

// Year, month and day of a day since 1970, up to the end of the year 9999.
fn civil_of(day: u32) -> (u16, u8, u8)
    requires { day ≤ 2_932_896 }
    ensures civil { IsCivilDate (pos result.0) result.1 result.2 }
    ensures counts { days_from_civil (pos result.0) result.1 result.2 ≡ pos day }
{
    let date = Date::from_days_since_min(day + DAYS_TO_1970);
    (natural(date.year), date.month, date.day)
}

// The character of a digit.
fn digit(number: u8) -> char
    requires { number < 10 }
    ensures { result ≡ 48 + number }
{
    (b'0' + number) as char
}

// Appends a number in two digits.
fn push_two(text: &mut String, number: u8) -> Result<(), NoMemory>
    requires { number < 100 }
    ensures { OnOk result (string_bytes text.new ≡ string_bytes text.old ++ two_digits number) }
{
    text.push(digit(number / 10))?;
    text.push(digit(number % 10))?;
    Ok(())
}

// Appends the day: `YYYY-MM-DD`.
fn push_day(text: &mut String, year: u16, month: u8, day: u8) -> Result<(), NoMemory>
    requires year { year < 10000 }
    requires month { month < 100 }
    requires day { day < 100 }
    ensures { OnOk result (string_bytes text.new ≡ string_bytes text.old ++ (four_digits year ++ (codes "-"
        ++ (two_digits month ++ (codes "-" ++ two_digits day))))) }
{
    push_two(text, (year / 100) as u8)?;
    push_two(text, (year % 100) as u8)?;
    text.push('-')?;
    push_two(text, month)?;
    text.push('-')?;
    push_two(text, day)
}

// Appends the minute of a second in its day: ` HH:MM`.
fn push_clock(text: &mut String, secs: u64) -> Result<(), NoMemory>
    ensures { OnOk result (string_bytes text.new ≡ string_bytes text.old ++ (codes " "
        ++ (two_digits (secs % 86400 / 3600) ++ (codes ":" ++ two_digits (secs % 3600 / 60))))) }
{
    text.push(' ')?;
    push_two(text, (secs % 86_400 / 3_600) as u8)?;
    text.push(':')?;
    push_two(text, (secs % 3_600 / 60) as u8)
}

// Appends the minute of a second since 1970, up to the end of the year 9999, in UTC.
fn push_minute(text: &mut String, secs: u64) -> Result<(), NoMemory>
    requires { secs < 253_402_300_800 }
    ensures { OnOk result ((minute : List ℕ) × (string_bytes text.new ≡ string_bytes text.old ++ minute)
        × IsMinute secs minute) }
{
    let (year, month, day) = civil_of((secs / 86_400) as u32);
    push_day(text, year, month, day)?;
    push_clock(text, secs)?;
    Ok(())
}

// Appends the text of a time. It is empty where the time is unknown, and a time before 1970 or after 9999 is.
pub(crate) fn push_date(text: &mut String, time: Option<FileTime>) -> Result<(), NoMemory>
    ensures { OnOk result ((date : List ℕ) × (string_bytes text.new ≡ string_bytes text.old ++ date)
        × IsDateOf (known time) date) }
{
    match time {
        Some(time) if time.secs >= 0 && time.secs < 253_402_300_800 => {
            push_minute(text, time.secs as u64)
        }
        _ => Ok(()),
    }
}

// Appends the text of a member's size.
pub(crate) fn push_size_of(text: &mut String, member: &Member) -> Result<(), NoMemory>
    ensures value { OnOk result (string_bytes text.new ≡ string_bytes text.old ++ size_of member.now) }
    ensures form { OnOk result (form.IsSize (size_of member.now)) }
{
    if member.kind == Kind::File {
        push_size(text, member.len)
    } else {
        Ok(text.push_str(NO_SIZE)?)
    }
}
