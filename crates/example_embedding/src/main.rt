//! What a handler of one's own can have besides, as docs/CACHES.md shows it: clients whose stores share caches, and a
//! store that holds small files, over a slow disk. Standard output has a line for each answer.
#![tactic(auto)]

mod plain;
mod read_cache;
mod sessions;

use anyhow::Result;

fn main(rt: HostRuntime) -> Result<()> {
    let alloc = rt.alloc();
    for status in &sessions::statuses(&rt, alloc)? {
        println!(rt; "GET /Letter.txt over shared caches: {status}")?;
    }
    let disk = read_cache::slow(alloc, sessions::folder(alloc)?)?;
    let calls = plain::calls(alloc, disk, "/letter.txt")?;
    println!(rt; "GET /letter.txt over the store inside: {calls} calls of the disk")?;
    let disk = read_cache::slow(alloc, sessions::folder(alloc)?)?;
    for answer in &read_cache::answers(alloc, disk, "/letter.txt")? {
        println!(rt; "GET /letter.txt over held contents: {answer}")?;
    }
    Ok(())
}
