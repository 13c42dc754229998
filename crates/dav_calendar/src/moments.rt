//! Moments: days, and times of days (RFC 5545 sections 3.3.4 and 3.3.5).
ghost use Rattle.std.specs.Prelude.{◌≡◌, ◌<◌, ◌≤◌, ◌^◌, ◌≤ℤ◌, IfSome, length, neg_ℤ, pos, true};
ghost use Rattle.std.specs.Char.{is_ascii_digit};
ghost use Rattle.std.specs.List.{list_all};
ghost use Rattle.std.specs.Str.{all_ascii_digits};
ghost use Rattle.dav_calendar.specs.Moments as form;
ghost use Rattle.dav_calendar.specs.Moments.{value_in};

use jiff_core::civil::Date;

/// A moment, which is taken as UTC.
#[derive(Clone, Copy, Debug, PartialEq, Eq)]
pub struct Moment {
    /// Seconds since the beginning of 1970-01-01. A day's moment is its midnight.
    pub seconds: i64,
    /// It is a day, without a time.
    pub is_day: bool,
}

fn each_is_digit(text: &[u8]) -> bool
    ensures { result ≡ list_all is_ascii_digit text.now }
{
    text.iter().all(|b| b.is_ascii_digit())
}

#[tactic(auto, using(dav_io::proofs::Digits::all_are_digits))]
fn are_digits(text: &[u8]) -> bool
    ensures { result ≡ all_ascii_digits text.now }
{
    each_is_digit(text)
}

/// The number that some decimal digits write.
pub(crate) fn number(digits: &[u8]) -> u32
    requires some { 0 < length digits.now }
    requires short { length digits.now ≤ 9 }
    requires digits { all_ascii_digits digits.now ≡ true }
    ensures { result ≡ value_in digits.now }
{
    match str::from_utf8(digits) {
        Ok(text) => match text.parse::<u32>() {
            Ok(number) => number,
            Err(_) => 0,
        },
        Err(_) => 0,
    }
}

fn signed(year: u32) -> i16
    requires { year ≤ 9999 }
    ensures { result ≡ pos year }
{
    year as i16
}

/// The midnight of a day that is real.
fn midnight(year: u32, month: u32, day: u32) -> Option<i64>
    requires year { year ≤ 9999 }
    requires month { month ≤ 99 }
    requires day { day ≤ 99 }
    ensures value { result ≡ form.midnight year month day }
    ensures small { IfSome result (λ s. (neg_ℤ (pos (2 ^ 50)) ≤ℤ s) × (s ≤ℤ pos (2 ^ 50))) }
{
    if month < 1 || month > 12 || day < 1 {
        return None;
    }
    let date = Date::constrain(signed(year), month as u8, day as u8);
    if date.day as u32 != day {
        return None;
    }
    Some(date.to_unix_epoch_day() as i64 * 86_400)
}

/// The midnight of a real day of eight digits.
fn day(text: &[u8]) -> Option<i64>
    ensures value { result ≡ form.day text.now }
    ensures small { IfSome result (λ s. (neg_ℤ (pos (2 ^ 50)) ≤ℤ s) × (s ≤ℤ pos (2 ^ 50))) }
{
    if text.len() != 8 || !are_digits(text) {
        return None;
    }
    midnight(number(&text[..4]), number(&text[4..6]), number(&text[6..]))
}

/// The seconds of a day up to a time that is real. Second 60 counts as 59.
fn within_day(hour: u32, minute: u32, second: u32) -> Option<u32>
    ensures value { result ≡ form.within_day hour minute second }
    ensures small { IfSome result (λ s. s < 86400) }
{
    if hour > 23 || minute > 59 || second > 60 {
        return None;
    }
    let second = if second == 60 { 59 } else { second };
    Some(hour * 3600 + minute * 60 + second)
}

/// The seconds of a day up to a time of six digits.
fn clock(digits: &[u8]) -> Option<u32>
    ensures value { result ≡ form.clock digits.now }
    ensures small { IfSome result (λ s. s < 86400) }
{
    if digits.len() != 6 || !are_digits(digits) {
        return None;
    }
    within_day(
        number(&digits[..2]),
        number(&digits[2..4]),
        number(&digits[4..]),
    )
}

/// Without the `Z` behind a time.
fn without_zone(text: &[u8]) -> &[u8]
    ensures { result.now ≡ form.without_zone text.now }
{
    if text.len() == 8 && text[7] == b'Z' {
        &text[..7]
    } else {
        text
    }
}

/// The seconds of a day up to a time behind a `T`.
fn time(text: &[u8]) -> Option<u32>
    ensures value { result ≡ form.time text.now }
    ensures small { IfSome result (λ s. s < 86400) }
{
    match without_zone(text).strip_prefix(b"T") {
        Some(digits) => clock(digits),
        None => None,
    }
}

/// The moment that a text says, where it says one (RFC 5545 sections 3.3.4 and 3.3.5): `YYYYMMDD` is a day and its
/// moment its midnight, `YYYYMMDDTHHMMSS` with or without `Z` a time of a day. Day and time must be real; second 60
/// counts as 59. All are taken as UTC.
pub fn read_moment(text: &[u8]) -> Option<Moment>
    ensures value { result ≡ form.moment text.now }
    ensures small { IfSome result (λ m. (neg_ℤ (pos (2 ^ 51)) ≤ℤ m.seconds) × (m.seconds ≤ℤ pos (2 ^ 51))) }
{
    if text.len() <= 8 {
        return match day(text) {
            Some(seconds) => Some(Moment {
                seconds,
                is_day: true,
            }),
            None => None,
        };
    }
    let Some(start) = day(&text[..8]) else {
        return None;
    };
    match time(&text[8..]) {
        Some(within) => Some(Moment {
            seconds: start + within as i64,
            is_day: false,
        }),
        None => None,
    }
}
