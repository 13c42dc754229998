//! Fetches trees from peers in memory: a row a line on standard input, and an answer a line on standard output.
//!
//!     MOST FAILS REPLIES [MOST FAILS REPLIES]
//!     over BUFFER TREE TURNS FAILS MOST [MOST]
//!
//! A row is one fetch into an empty copy, or two, the second into what the first left; each from a peer of its own. MOST
//! is how many requests are allowed, FAILS the numbers of the calls that fail with `,` between, or `-`. REPLIES have `;`
//! between, or are `-`: a reply is STATUS|FIELDS|BODY, and its fields NAME=VALUE have `&` between. What a page or a value
//! has is percent-encoded, as it comes and as it is printed. A body `*COUNT` is so many `x`; a body `@LINK,LINK..` is the
//! page of a directory whose rows have these links. In a link `+COUNT+` is so many `n`.
//!
//! Behind `over` the peers are players over one disk in memory, which read BUFFER bytes at once, or 0 for the default. The
//! disk has the entries of TREE with `,` between: `PATH/` is a directory, and `PATH=BODY` a file. Each request makes a turn;
//! TURNS have `;` between, or are `-`, and their changes `cut:PATH:COUNT`, `remove:PATH` and `file:PATH:BODY` have `,`
//! between. FAILS are numbers of the disk's calls then.
//!
//! A fetch is answered by the requests made, each with its fields; how it ended; the directories; and the files, each
//! with its tag, its length and its bytes. A line that begins with `#` is written as it stands.
#![tactic(auto)]

mod disks;
mod noted;
mod over;
mod ready;
mod told;

ghost use Rattle.dav_fetch.specs.Copy.{IsCopy};

use dav_fetch::{Copied, MemPeer, fetch};
use dav_rows::{Line, word};
use noted::Noted;
use over::answer_over;
use ready::{fails, replies};
use std::alloc::Global;
use std::io;
use told::{tell_copy, tell_end};

// What three words ask for.
#[derive(Drop)]
struct Asked<'a> {
    most: &'a str,
    fails: &'a str,
    replies: &'a str,
}

// What they ask for is fetched into the copy, and told.
fn fetched(alloc: Global, line: &mut Line, copy: &mut Copied, asked: Asked<'_>)
    requires { IsCopy copy.old }
    ensures { IsCopy copy.new }
{
    let most = asked.most.parse::<u64>().unwrap_or(0);
    let Ok(fails) = fails(alloc, asked.fails) else {
        line.refuse();
        return;
    };
    let Ok(replies) = replies(alloc, asked.replies) else {
        line.refuse();
        return;
    };
    let mut peer = Noted::new(alloc, MemPeer::new(alloc, replies, fails));
    let ended = fetch(alloc, &mut peer, copy, most);
    line.add(peer.asked());
    let _ = peer.into_peer();
    tell_end(line, ended);
    tell_copy(line, copy);
}

fn answer(alloc: Global, line: &mut Line, row: &str) {
    if row.starts_with('#') {
        line.add(row);
        return;
    }
    if row.starts_with("over ") {
        answer_over(alloc, line, row);
        return;
    }
    let mut copy = Copied::empty(alloc);
    let first = Asked {
        most: word(row, 0),
        fails: word(row, 1),
        replies: word(row, 2),
    };
    fetched(alloc, line, &mut copy, first);
    let second = Asked {
        most: word(row, 3),
        fails: word(row, 4),
        replies: word(row, 5),
    };
    if !second.most.is_empty() {
        line.add(" then ");
        fetched(alloc, line, &mut copy, second);
    }
}

fn main(rt: HostRuntime) -> io::Result<()> {
    for row in rt.lines(rt.alloc()) {
        let mut line = Line::new(rt.alloc());
        answer(rt.alloc(), &mut line, row?.as_str());
        println!(rt; "{}", line.as_str())?;
    }
    Ok(())
}
