// Which members a page shows, and in which order.
ghost use Rattle.std.specs.Prelude.{◌≡◌, ◌++◌, IfOk, OnOk, codes};
ghost use Rattle.std.specs.List.{filter};
ghost use Rattle.std.specs.List.Sorted.{IsPermutation, IsSortedByKey};
ghost use Rattle.std.specs.Cmp.Lexicographic.{slice_cmp};
ghost use Rattle.std.specs.Ordering.{nat_cmp};
ghost use Rattle.dav_page.specs.Listed as listed;

use dav_core::{Kind, Member};
use dav_io::NoMemory;
use std::cmp::Ordering;

// Whether its name doesn't begin with a dot.
fn is_visible(member: &Member) -> bool
    ensures { result ≡ listed.is_visible member.now }
{
    match member.name.as_slice() {
        [first, ..] => *first != b'.',
        [] => true,
    }
}

// The order of two names with a slash behind each.
fn slashed_order(one: &[u8], other: &[u8]) -> Ordering
    ensures { result ≡ slice_cmp nat_cmp (one.now ++ codes "/") (other.now ++ codes "/") }
{
    let mut right = other;
    'front: for a in one {
        let Some((b, behind)) = right.split_first() else {
            return a.cmp(&b'/').then(Ordering::Greater);
        };
        if *a != *b {
            return a.cmp(b);
        }
        right = behind;
    }
    match right {
        [b, ..] => b'/'.cmp(b).then(Ordering::Less),
        [] => Ordering::Equal,
    }
}

// The order of two members on a page: directories come first, and within a kind the lesser shown name does, by its
// bytes.
fn page_order(one: &Member, other: &Member) -> Ordering
    ensures { result ≡ slice_cmp nat_cmp (listed.place_of one.now) (listed.place_of other.now) }
{
    match (one.kind == Kind::Dir, other.kind == Kind::Dir) {
        (true, true) => slashed_order(one.name.as_slice(), other.name.as_slice()),
        (true, false) => Ordering::Less,
        (false, true) => Ordering::Greater,
        (false, false) => one.name.cmp(&other.name),
    }
}

// Drops the members that aren't shown.
fn keep_visible(members: &mut Vec<Member>)
    ensures { members.new.items ≡ filter listed.is_visible members.old.items }
{
    members.retain(|member| is_visible(member));
}

// Brings members into the order of pages.
fn sort(members: &mut Vec<Member>) -> Result<(), NoMemory>
    ensures each_once { OnOk result (IsPermutation members.old.items members.new.items) }
    ensures in_order { OnOk result (IsSortedByKey listed.place_of (slice_cmp nat_cmp) members.new.items) }
{
    members.sort_by(|one, other| page_order(one, other))?;
    Ok(())
}

// The members that a page shows, in its order.
pub(crate) fn listed(mut members: Vec<Member>) -> Result<Vec<Member>, NoMemory>
    ensures each_once { IfOk result (λ v. IsPermutation (filter listed.is_visible members.items) v.items) }
    ensures in_order { IfOk result (λ v. IsSortedByKey listed.place_of (slice_cmp nat_cmp) v.items) }
{
    keep_visible(&mut members);
    sort(&mut members)?;
    Ok(members)
}
