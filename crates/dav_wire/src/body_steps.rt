//! The steps of a reader of a body, over the bytes that are held. They ask no source.
ghost use Rattle.std.specs.Prelude.{◌≡◌, ◌<◌, ℕ, List, ◌++◌, IfOk, Ok, length, min, take};
ghost use Rattle.dav_wire.specs.BodySteps.{Stands, StepFits, Steps, HaltFits, Halts};
ghost use Rattle.dav_wire.specs.declared.announcing.Announced.{Announced};
ghost use Rattle.dav_wire.specs.declared.body_steps.Step.TheVariants.{More};
ghost use Rattle.dav_wire.specs.declared.body_steps.Place.TheVariants.{Between, Inside, Last, Rest};

use crate::next::Flaw;
use crate::size_line::{EndFound, SizeFound, line_end_at, read_size};
use dav_io::NoMemory;

/// The most bytes of a body.
pub const MOST_BODY: u64 = 1_073_741_824;

// Where a reader of a body stands.
#[derive(Clone, Copy)]
pub enum Place {
    // In a body of a length that was announced, in front of so many bytes.
    Rest(u64),
    // In front of the line with the size of a chunk.
    Between,
    // In a chunk, in front of so many bytes and the end of a line.
    Inside(u64),
    // Behind the line of size 0, in front of the end of a line.
    Last,
}

// What a step comes to.
#[derive(Clone, Copy)]
pub enum Step {
    // So many bytes were passed, and the reader stands there.
    On(usize, Place),
    // So many bytes were passed, and the body is whole.
    Over(usize),
    // More bytes are wanted.
    More,
    // No body can stand there.
    Refused(Flaw),
}

// Why steps go no further.
#[derive(Clone, Copy)]
pub enum Halt {
    // The body is whole.
    Over,
    // More bytes are wanted at this place.
    Wanting(Place),
    // No body can stand there.
    Refused(Flaw),
}

// Steps as far as the bytes that are held go: how many were passed, and why they go no further.
#[derive(Clone, Copy)]
pub struct Stepped {
    pub used: usize,
    pub halt: Halt,
}

// Takes steps as far as the bytes that are held go.
pub fn advance(place: Place, held: &[u8], body: &mut Vec<u8>) -> Result<Stepped, NoMemory>
    ensures fits { IfOk result (λ end. HaltFits held.now end.used end.halt) }
    ensures does { (announced : Announced) (passed : List ℕ) → Stands announced passed place body.old.items
        → IfOk result (λ end. Halts announced passed held.now end body.new.items) }
{
    let mut place = place;
    let mut at = 0;
    'steps: loop {
        let (_, rest) = held.split_at(at);
        match take_step(place, rest, body) {
            Ok(Step::On(used, to)) => {
                at += used;
                place = to;
            }
            Ok(Step::Over(used)) => {
                return Ok(Stepped {
                    used: at + used,
                    halt: Halt::Over,
                });
            }
            Ok(Step::More) => {
                return Ok(Stepped {
                    used: at,
                    halt: Halt::Wanting(place),
                });
            }
            Ok(Step::Refused(flaw)) => {
                return Ok(Stepped {
                    used: at,
                    halt: Halt::Refused(flaw),
                });
            }
            Err(error) => return Err(error),
        }
    }
}

fn take_step(place: Place, held: &[u8], body: &mut Vec<u8>) -> Result<Step, NoMemory>
    ensures fits { IfOk result (StepFits held.now) }
    ensures does { (announced : Announced) (passed : List ℕ) → Stands announced passed place body.old.items
        → IfOk result (λ step. Steps announced passed held.now step body.new.items) }
    ensures same { result ≡ Ok More → body.new.items ≡ body.old.items }
{
    match place {
        Place::Between => Ok(line_step(held, body)),
        Place::Inside(left) => {
            if left == 0 {
                return Ok(end_step(held, body));
            }
            chunk_step(left, held, body)
        }
        Place::Last => Ok(last_step(held, body)),
        Place::Rest(left) => rest_step(left, held, body),
    }
}

// In front of the line with the size of a chunk.
fn line_step(held: &[u8], body: &[u8]) -> Step
    ensures fits { StepFits held.now result }
    ensures does { (announced : Announced) (passed : List ℕ) → Stands announced passed Between body.now
        → Steps announced passed held.now result body.now }
{
    match read_size(held) {
        SizeFound::Line(size, len) => {
            if size > MOST_BODY.saturating_sub(body.len() as u64) {
                return Step::Refused(Flaw::TooLarge);
            }
            if size == 0 {
                return Step::On(len, Place::Last);
            }
            Step::On(len, Place::Inside(size))
        }
        SizeFound::More => Step::More,
        SizeFound::Never => Step::Refused(Flaw::Malformed),
    }
}

// Behind the bytes of a chunk, in front of the end of a line.
fn end_step(held: &[u8], body: &[u8]) -> Step
    ensures fits { StepFits held.now result }
    ensures does { (announced : Announced) (passed : List ℕ) → Stands announced passed (Inside 0) body.now
        → Steps announced passed held.now result body.now }
{
    match line_end_at(held) {
        EndFound::Here => Step::On(2, Place::Between),
        EndFound::Partly => Step::More,
        EndFound::Nowhere => Step::Refused(Flaw::Malformed),
    }
}

// Behind the line of size 0, in front of the end of a line, which is the end of the body.
fn last_step(held: &[u8], body: &[u8]) -> Step
    ensures fits { StepFits held.now result }
    ensures does { (announced : Announced) (passed : List ℕ) → Stands announced passed Last body.now
        → Steps announced passed held.now result body.now }
{
    match line_end_at(held) {
        EndFound::Here => Step::Over(2),
        EndFound::Partly => Step::More,
        EndFound::Nowhere => Step::Refused(Flaw::Malformed),
    }
}

// Inside a chunk.
fn chunk_step(left: u64, held: &[u8], body: &mut Vec<u8>) -> Result<Step, NoMemory>
    requires { 0 < left }
    ensures fits { IfOk result (StepFits held.now) }
    ensures does { (announced : Announced) (passed : List ℕ) → Stands announced passed (Inside left) body.old.items
        → IfOk result (λ step. Steps announced passed held.now step body.new.items) }
    ensures same { result ≡ Ok More → body.new.items ≡ body.old.items }
{
    if held.is_empty() {
        return Ok(Step::More);
    }
    match take_bytes(left, held, body) {
        Ok(count) => Ok(Step::On(count, Place::Inside(left - count as u64))),
        Err(error) => Err(error),
    }
}

// Inside a body of a length that was announced.
fn rest_step(left: u64, held: &[u8], body: &mut Vec<u8>) -> Result<Step, NoMemory>
    ensures fits { IfOk result (StepFits held.now) }
    ensures does { (announced : Announced) (passed : List ℕ) → Stands announced passed (Rest left) body.old.items
        → IfOk result (λ step. Steps announced passed held.now step body.new.items) }
    ensures same { result ≡ Ok More → body.new.items ≡ body.old.items }
{
    if left == 0 {
        return Ok(Step::Over(0));
    }
    if held.is_empty() {
        return Ok(Step::More);
    }
    match take_bytes(left, held, body) {
        Ok(count) => Ok(Step::On(count, Place::Rest(left - count as u64))),
        Err(error) => Err(error),
    }
}

// Puts bytes that are held behind those of the body, as many as there are and at most so many.
fn take_bytes(left: u64, held: &[u8], body: &mut Vec<u8>) -> Result<usize, NoMemory>
    ensures { IfOk result (λ count. (count ≡ min left (length held.now))
        × (body.new.items ≡ body.old.items ++ take count held.now)) }
{
    let count = left.min(held.len() as u64) as usize;
    let (bytes, _) = held.split_at(count);
    body.extend_from_slice(bytes)?;
    Ok(count)
}
