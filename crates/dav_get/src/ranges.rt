// The parts of a file that the value of a field `range` asks for.
ghost use Rattle.std.specs.Prelude.{◌≤◌, ◌≡◌, ◌==◌, ◌&&◌, ◌-◌, ◌^◌, ◌<◌, IfOk, None, Some, ℕ, drop, if◌then◌else◌, length, map, min, nat_le, not, option_copied, option_map, true};
ghost use Rattle.std.specs.Char.{is_ascii_digit};
ghost use Rattle.std.specs.List.{list_all, position, slice_split};
ghost use Rattle.std.specs.Str.{all_ascii_digits};
ghost use Rattle.std.specs.Str.Parse.{digits_value};
ghost use Rattle.dav_model.specs.Slices as ranges;
ghost use Rattle.dav_model.specs.Slices.{Back, From};
ghost use Rattle.dav_get.specs.Numbers.{zeros_dropped};
ghost use Rattle.dav_get.specs.Found.{ended, pieces_judged};

use dav_core::trimmed;
use dav_io::NoMemory;
use dav_model::{Judged, Ranges, Slice, Slices};
use std::alloc::Global;

fn are_digits(text: &[u8]) -> bool
    ensures { result ≡ list_all is_ascii_digit text.now }
{
    text.iter().all(|b| b.is_ascii_digit())
}

// Whether a text is decimal digits alone, one or more.
#[tactic(auto, using(dav_io::proofs::Digits::all_are_digits))]
fn is_number(text: &[u8]) -> bool
    ensures { result ≡ (not (length text.now == 0) && all_ascii_digits text.now) }
{
    !text.is_empty() && are_digits(text)
}

// A number in decimal digits; the greatest of 64 bits where it doesn't fit.
fn clipped(digits: &[u8]) -> u64
    requires some { 0 < length digits.now }
    requires digits { all_ascii_digits digits.now ≡ true }
    ensures { result ≡ min (digits_value 10 digits.now) (2 ^ 64 - 1) }
{
    match str::from_utf8(digits) {
        Ok(text) => match text.parse::<u64>() {
            Ok(number) => number,
            Err(_) => u64::MAX,
        },
        Err(_) => u64::MAX,
    }
}

// A number that a member says, as above. None where it isn't one.
fn number(text: &[u8]) -> Option<u64>
    ensures { result ≡ option_map (λ n. min n (2 ^ 64 - 1)) (ranges.number text.now) }
{
    if is_number(text) {
        Some(clipped(text))
    } else {
        None
    }
}

// Decimal digits without the zeros at their front.
fn without_zeros(digits: &[u8]) -> &[u8]
    ensures { result.now ≡ zeros_dropped digits.now }
{
    let mut rest = digits;
    while let Some((first, more)) = rest.split_first() {
        if *first != b'0' {
            return rest;
        }
        rest = more;
    }
    rest
}

// Whether a number in decimal digits is at most another, however long they are.
fn is_at_most(first: &[u8], last: &[u8]) -> bool
    requires first { all_ascii_digits first.now ≡ true }
    requires last { all_ascii_digits last.now ≡ true }
    ensures { result ≡ nat_le (digits_value 10 first.now) (digits_value 10 last.now) }
{
    let first = without_zeros(first);
    let last = without_zeros(last);
    if first.len() != last.len() {
        return first.len() < last.len();
    }
    first.cmp(last).is_le()
}

// What so many bytes at the end of a file come to. The count is clipped, as a number is.
fn last_bytes(len: u64, count: u64) -> Judged
    ensures { (n : ℕ) → count ≡ min n (2 ^ 64 - 1) → result ≡ ranges.judged len (Back n) }
{
    if count == 0 {
        return Judged::Unmet;
    }
    if len == 0 {
        return Judged::Everything;
    }
    let count = if count < len { count } else { len };
    Judged::Part(Slice {
        start: len - count,
        count,
    })
}

// What a member that asks for the bytes at a file's end comes to, by the digits behind its dash.
fn judge_back(len: u64, digits: &[u8]) -> Option<Judged>
    ensures { result ≡ option_map (ranges.judged len) (option_map (λ n. Back n) (ranges.number digits.now)) }
{
    match number(digits) {
        Some(count) => Some(last_bytes(len, count)),
        None => None,
    }
}

// What the bytes from a place on come to. The place is clipped.
fn bytes_from(len: u64, first: u64) -> Judged
    ensures { (n : ℕ) → first ≡ min n (2 ^ 64 - 1) → result ≡ ranges.judged len (From n None) }
{
    if first >= len {
        return Judged::Unmet;
    }
    Judged::Part(Slice {
        start: first,
        count: len - first,
    })
}

// What the bytes from one place to another come to. Both are clipped.
fn bytes_between(len: u64, first: u64, last: u64) -> Judged
    requires { first ≤ last }
    ensures { (n m : ℕ) → first ≡ min n (2 ^ 64 - 1) → last ≡ min m (2 ^ 64 - 1)
        → result ≡ ranges.judged len (From n (Some m)) }
{
    if first >= len {
        return Judged::Unmet;
    }
    let rest = len - first;
    let asked = last - first;
    Judged::Part(Slice {
        start: first,
        count: if asked < rest { asked + 1 } else { rest },
    })
}

// What a member that says its first place comes to, by what stands in front of its dash and behind it.
fn judge_from(len: u64, first: &[u8], last: &[u8]) -> Option<Judged>
    ensures { result ≡ option_map (ranges.judged len) (ranges.asked_from (ranges.number first.now) last.now) }
{
    if !is_number(first) {
        return None;
    }
    let place = clipped(first);
    if last.is_empty() {
        return Some(bytes_from(len, place));
    }
    if !is_number(last) {
        return None;
    }
    if !is_at_most(first, last) {
        return None;
    }
    Some(bytes_between(len, place, clipped(last)))
}

// What a member with its first dash at this place comes to. None where it can't be read.
fn judge_at(len: u64, member: &[u8], dash: usize) -> Option<Judged>
    requires { dash < length member.now }
    ensures { result ≡ option_map (ranges.judged len) (ranges.asked_at (Some dash) member.now) }
{
    if dash == 0 {
        judge_back(len, &member[1..])
    } else {
        judge_from(len, &member[..dash], &member[dash + 1..])
    }
}

// The place of the first dash.
fn dash_in(member: &[u8]) -> Option<usize>
    ensures { result ≡ position (λ b. b == 45) member.now }
{
    member.iter().position(|b| *b == b'-')
}

// What a member comes to. None where it can't be read.
fn judge(len: u64, member: &[u8]) -> Option<Judged>
    ensures { result ≡ option_map (ranges.judged len) (ranges.asked member.now) }
{
    match dash_in(member) {
        Some(dash) => judge_at(len, member, dash),
        None => None,
    }
}

// The pieces between the commas of a list.
fn pieces(alloc: Global, list: &[u8]) -> Result<Vec<&[u8]>, NoMemory>
    ensures { IfOk result (λ v. map (λ p. p.now) v.items ≡ slice_split (λ b. b == 44) list.now) }
{
    let all = list.split(|b| *b == b',').collect(alloc)?;
    Ok(all)
}

// What all members together ask for, where each of them could be read: whether there was one, whether one asks for all
// of an empty file, and the slices of those that are met.
fn answer(has_member: bool, everything: bool, met: Vec<Slice>) -> Ranges
    ensures { result ≡ ended has_member everything met.items }
{
    if everything || !has_member {
        return Ranges::Whole;
    }
    if met.is_empty() {
        return Ranges::Unsatisfiable;
    }
    Ranges::Parts(Slices::new(met))
}

// What the members among pieces ask for together.
fn judge_all(alloc: Global, len: u64, pieces: &[&[u8]]) -> Result<Ranges, NoMemory>
    ensures { IfOk result (λ found. found ≡ ranges.answer (pieces_judged len (map (λ p. p.now) pieces.now))) }
{
    let mut has_member = false;
    let mut everything = false;
    let mut met = Vec::new(alloc);
    for piece in pieces {
        let member = trimmed(*piece);
        if !member.is_empty() {
            has_member = true;
            match judge(len, member) {
                Some(Judged::Unmet) => {}
                Some(Judged::Part(slice)) => met.push(slice)?,
                Some(Judged::Everything) => everything = true,
                None => return Ok(Ranges::Whole),
            }
        }
    }
    Ok(answer(has_member, everything, met))
}

// What stands behind the unit.
fn behind_unit(value: &[u8]) -> Option<&[u8]>
    ensures { option_copied result ≡ (if ranges.has_unit value.now then Some (drop 6 value.now) else None) }
{
    match value.split_at_checked(6) {
        Some((unit, list)) => {
            if unit.eq_ignore_ascii_case(b"bytes=") {
                Some(list)
            } else {
                None
            }
        }
        None => None,
    }
}

// The parts that a value asks for.
fn ranges_in(alloc: Global, len: u64, value: &[u8]) -> Result<Ranges, NoMemory>
    ensures { IfOk result (λ found. found ≡ ranges.ranges_in len value.now) }
{
    let Some(list) = behind_unit(value) else {
        return Ok(Ranges::Whole);
    };
    let pieces = pieces(alloc, list)?;
    judge_all(alloc, len, pieces.as_slice())
}

/// The parts of a file of `len` bytes that the value of the first field `range` asks for (RFC 9110, sections 14.1.1 and
/// 14.1.2). Numbers have any length; there are as many parts as members that can be met, and they overlap where members
/// do. It fails where memory is refused.
pub fn slices(alloc: Global, value: Option<&[u8]>, len: u64) -> Result<Ranges, NoMemory>
    ensures ranges { IfOk result (λ found. found ≡ ranges.ranges (option_copied value.entry) len) }
    ensures within { IfOk result (ranges.AreWithin len) }
{
    match value {
        Some(value) => ranges_in(alloc, len, value),
        None => Ok(Ranges::Whole),
    }
}
