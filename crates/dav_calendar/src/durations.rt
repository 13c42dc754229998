//! Durations: a plus or nothing, `P`, and weeks, or days and behind a `T` hours, minutes and seconds (RFC 5545 section
//! 3.3.6).
ghost use Rattle.std.specs.Prelude.{ℕ, ◌≡◌, ◌+◌, ◌*◌, ◌≤◌, ◌^◌, IfSome, length};
ghost use Rattle.std.specs.Char.{is_ascii_digit};
ghost use Rattle.std.specs.List.{prefix_len};
ghost use Rattle.dav_calendar.specs.Moments as form;
ghost use Rattle.dav_calendar.specs.TakenBy.{taken_by};

use crate::moments::number;

/// How many digits stand at the front.
fn digits_in(text: &[u8]) -> usize
    ensures value { result ≡ prefix_len is_ascii_digit text.now }
    ensures within { result ≤ length text.now }
{
    for place in 0..text.len() {
        if !text[place].is_ascii_digit() {
            return place;
        }
    }
    text.len()
}

/// A unit at the front, `each` seconds long: its seconds, whether it stands there, and what is left. None where its
/// number can't be read.
fn unit(text: &[u8], letter: u8, each: u32) -> Option<(u64, bool, &[u8])>
    requires { each ≤ 604800 }
    ensures value { taken_by result ≡ form.unit letter each text.now }
    ensures small { IfSome result (λ t. t.0 ≤ 10 ^ 9 * each) }
{
    let place = digits_in(text);
    if place >= text.len() || text[place] != letter {
        return Some((0, false, text));
    }
    if place < 1 || place > 9 {
        return None;
    }
    let seconds = number(&text[..place]) as u64 * each as u64;
    Some((seconds, true, &text[place + 1..]))
}

/// One unit behind what was taken.
fn then_unit(taken: Option<(u64, bool, &[u8])>, letter: u8, each: u32) -> Option<(u64, bool, &[u8])>
    requires each { each ≤ 604800 }
    requires small { IfSome taken (λ t. t.0 ≤ 2 ^ 60) }
    ensures value { taken_by result ≡ form.then_unit letter each (taken_by taken.entry) }
    ensures small { IfSome taken.entry (λ t. IfSome result (λ u. u.0 ≤ t.0 + 10 ^ 9 * each)) }
{
    let Some((before, some, text)) = taken else {
        return None;
    };
    match unit(text, letter, each) {
        Some((seconds, here, rest)) => Some((before + seconds, some || here, rest)),
        None => None,
    }
}

/// What was taken, where it is something and nothing is left.
fn whole(taken: Option<(u64, bool, &[u8])>) -> Option<u64>
    ensures value { result ≡ form.whole (taken_by taken.entry) }
    ensures small { (most : ℕ) → IfSome taken.entry (λ t. t.0 ≤ most) → IfSome result (λ n. n ≤ most) }
{
    match taken {
        Some((seconds, some, rest)) => {
            if some && rest.is_empty() {
                Some(seconds)
            } else {
                None
            }
        }
        None => None,
    }
}

/// The seconds of hours, minutes and seconds, at least one of them.
fn clock_units(text: &[u8]) -> Option<u64>
    ensures value { result ≡ form.whole (form.clock_units text.now) }
    ensures small { IfSome result (λ n. n ≤ 2 ^ 42) }
{
    let hours = then_unit(Some((0, false, text)), b'H', 3_600);
    let minutes = then_unit(hours, b'M', 60);
    whole(then_unit(minutes, b'S', 1))
}

/// The seconds of what stands behind the days too: nothing, or a `T` and a clock.
fn behind_days(taken: Option<(u64, bool, &[u8])>) -> Option<u64>
    requires small { IfSome taken (λ t. t.0 ≤ 2 ^ 60) }
    ensures value { result ≡ form.behind_days (taken_by taken.entry) }
    ensures small { IfSome result (λ n. n ≤ 2 ^ 61) }
{
    let Some((days, some, text)) = taken else {
        return None;
    };
    match text.strip_prefix(b"T") {
        Some(clock) => match clock_units(clock) {
            Some(seconds) => Some(days + seconds),
            None => None,
        },
        None => whole(Some((days, some, text))),
    }
}

/// The seconds of weeks alone, or of days and a clock.
fn behind_weeks(text: &[u8], taken: Option<(u64, bool, &[u8])>) -> Option<u64>
    requires small { IfSome taken (λ t. t.0 ≤ 2 ^ 60) }
    ensures value { result ≡ form.behind_weeks text.now (taken_by taken.entry) }
    ensures small { IfSome result (λ n. n ≤ 2 ^ 61) }
{
    let Some((weeks, some, rest)) = taken else {
        return None;
    };
    if some {
        return whole(Some((weeks, some, rest)));
    }
    behind_days(unit(text, b'D', 86_400))
}

/// The seconds behind a `P`.
fn period(text: &[u8]) -> Option<u64>
    ensures value { result ≡ form.period text.now }
    ensures small { IfSome result (λ n. n ≤ 2 ^ 61) }
{
    match text.strip_prefix(b"P") {
        Some(rest) => behind_weeks(rest, unit(rest, b'W', 604_800)),
        None => None,
    }
}

/// Without a plus at the front.
fn without_plus(text: &[u8]) -> &[u8]
    ensures { result.now ≡ form.without_plus text.now }
{
    match text.strip_prefix(b"+") {
        Some(rest) => rest,
        None => text,
    }
}

/// The seconds of a duration that isn't negative (RFC 5545 section 3.3.6): a plus or nothing, `P`, and either weeks, or
/// days and behind a `T` hours, minutes and seconds in this order, at least one of them, and one behind a `T`. Each
/// number has 1 to 9 digits. None where the text is no such duration.
pub fn read_duration(text: &[u8]) -> Option<u64>
    ensures value { result ≡ form.duration text.now }
    ensures small { IfSome result (λ n. n ≤ 2 ^ 61) }
{
    period(without_plus(text))
}
