ghost use Rattle.std.specs.Prelude.{◌≡◌, ◌≤◌, ◌<◌, ◌+◌, ◌-◌, ◌^◌, [], ◌∷◌, List, true, false, vec_len, vec_capacity, length, take, drop, None, IfOk, IfSome, IsSome, max};
ghost use Rattle.std.specs.Borrow.{sem};
ghost use Rattle.dav_core.specs.Disk.{can_read};
ghost use Rattle.dav_model.specs.declared.ranges.Slice.{Slice};
ghost use Rattle.dav_model.specs.declared.answer.Answer.TheVariants.{Piece};
ghost use Rattle.dav_get.specs.declared.part.BodyPart.{BodyPart};
ghost use Rattle.dav_get.specs.declared.part.BodyPart.TheVariants.{Text as TextPart, Slice as SlicePart};
ghost use Rattle.dav_get.specs.Bodies.{left_of, next_most_of, IsHeld, Closes, Passes, is_slice, passed, answer_of, IsInside, IfPiece, IsRoom, Polls, IsPolled};
ghost use Rattle.dav_get.specs.BodyLent.{EndsPolled, answer_in};

use crate::{BodyPart, OpenAt, ReadBuffer};
use dav_core::Disk;
use dav_io::{NoMemory, Octets};
use dav_model::{Answer, Slice};
use dav_store::DavFile;
use std::mem;

/// The body of an answer: texts and slices of one open file, in order. It isn't dropped while it has its file open:
/// the poll that gives the last piece ends the file, and so does `close`.
#[derive(Drop)]
pub struct GetBody<F> {
    pub(crate) parts: Vec<BodyPart>,
    pub(crate) next: usize,
    pub(crate) file: Option<OpenAt<F>>,
    pub(crate) most: usize,
    pub(crate) buffer: Vec<u8>,
}

/// What a poll of a body gives.
pub enum Polled<'a> {
    /// The next piece, which isn't empty.
    Piece(&'a [u8]),
    /// Nothing is left.
    End,
    /// The disk failed, and nothing is left.
    Broken,
}

// Where the next piece stands.
#[derive(Clone, Copy, Debug)]
pub(crate) enum Given {
    // It is the text of this index.
    Text(usize),
    // So many bytes at the front of the buffer.
    Read(usize),
    End,
    Broken,
}

// Takes the text out of a part. A slice of no byte stands in its place.
fn take_text(part: &mut BodyPart) -> Octets
    requires { is_slice part.old ≡ false }
    ensures { part.old ≡ TextPart result }
{
    let nothing = BodyPart::Slice(Slice { start: 0, count: 0 });
    match mem::replace(part, nothing) {
        BodyPart::Text(text) => text,
        BodyPart::Slice(_) => unreachable!("the part is a text"),
    }
}

// A piece that is the front of some bytes.
fn front_of(bytes: Vec<u8>, count: usize) -> Answer
    ensures { result ≡ Piece (take count bytes.items) }
{
    let mut piece = bytes;
    piece.truncate(count);
    Answer::Piece(Octets::new(piece))
}

impl<F> GetBody<F> {
    /// A body of these parts. Their slices are of the file.
    pub fn new(parts: Vec<BodyPart>, file: Option<OpenAt<F>>, buffer: ReadBuffer) -> Self
        ensures left { left_of result ≡ parts.items }
        ensures file { result.file ≡ file }
        ensures most { result.most ≡ buffer.most }
        ensures room { vec_len result.buffer ≡ vec_len buffer.bytes }
    {
        let ReadBuffer { most, bytes } = buffer;
        GetBody {
            parts,
            next: 0,
            file,
            most,
            buffer: bytes,
        }
    }

    /// At least the length of the next piece, in bytes; 0 where nothing is left.
    pub fn next_most(&self) -> usize
        ensures { result ≡ next_most_of (left_of self.now) (vec_len self.now.buffer) }
    {
        if self.next >= self.parts.len() {
            return 0;
        }
        match &self.parts[self.next] {
            BodyPart::Text(text) => text.as_slice().len(),
            BodyPart::Slice(slice) => slice.count.min(self.buffer.len() as u64) as usize,
        }
    }

    // Ends the file, where it is still open.
    fn end<D: Disk>(&mut self, disk: &mut D)
    where
        F: DavFile<D>,
        requires { IfSome self.old.file (λ h. IsSome ((D.state disk.old).live (F.view.handle h.file))) }
        ensures done { Closes F.view.handle (D.state disk.old) self.old.file (D.state disk.new) }
        ensures rest { self.new ≡ record self.old { file = None } }
        ensures loan { D.loan disk.new ≡ D.loan disk.old }
    {
        if let Some(open) = self.file.take() {
            let OpenAt { file, place: _ } = open;
            file.close(disk);
        }
    }

    // The next part was given. After the last the file is ended.
    pub(crate) fn pass<D: Disk>(&mut self, disk: &mut D)
    where
        F: DavFile<D>,
        requires next { self.old.next < vec_len self.old.parts }
        requires live { IfSome self.old.file (λ h. IsSome ((D.state disk.old).live (F.view.handle h.file))) }
        ensures done { Passes F.view.handle (D.state disk.old) self.old (left_of self.new) (D.state disk.new)
            self.new.file }
        ensures parts { self.new.parts ≡ self.old.parts }
        ensures next { self.new.next ≡ self.old.next + 1 }
        ensures most { self.new.most ≡ self.old.most }
        ensures buffer { self.new.buffer ≡ self.old.buffer }
        ensures loan { D.loan disk.new ≡ D.loan disk.old }
    {
        self.next += 1;
        if self.next == self.parts.len() {
            self.end(disk);
        }
    }

    // A slice gave so many bytes, and moves on.
    pub(crate) fn advance<D: Disk>(&mut self, disk: &mut D, slice: Slice, count: u64)
    where
        F: DavFile<D>,
        requires next { self.old.next < vec_len self.old.parts }
        requires within { count ≤ slice.count }
        requires fits { slice.start + slice.count < 2 ^ 64 }
        requires live { IfSome self.old.file (λ h. IsSome ((D.state disk.old).live (F.view.handle h.file))) }
        ensures done { Passes F.view.handle (D.state disk.old) self.old (left_of self.new) (D.state disk.new)
            self.new.file }
        ensures left { left_of self.new ≡ passed slice count (drop (self.old.next + 1) self.old.parts.items) }
        ensures most { self.new.most ≡ self.old.most }
        ensures buffer { self.new.buffer ≡ self.old.buffer }
        ensures loan { D.loan disk.new ≡ D.loan disk.old }
    {
        if count == slice.count {
            self.pass(disk);
            return;
        }
        self.parts[self.next] = BodyPart::Slice(Slice {
            start: slice.start + count,
            count: slice.count - count,
        });
    }

    // Nothing is given any more.
    pub(crate) fn give_up<D: Disk>(&mut self, disk: &mut D)
    where
        F: DavFile<D>,
        requires { IfSome self.old.file (λ h. IsSome ((D.state disk.old).live (F.view.handle h.file))) }
        ensures done { Closes F.view.handle (D.state disk.old) self.old.file (D.state disk.new) }
        ensures left { left_of self.new ≡ [] }
        ensures file { self.new.file ≡ None }
        ensures most { self.new.most ≡ self.old.most }
        ensures buffer { self.new.buffer ≡ self.old.buffer }
        ensures loan { D.loan disk.new ≡ D.loan disk.old }
    {
        self.next = self.parts.len();
        self.end(disk);
    }

    // Makes one poll.
    fn step<D: Disk>(&mut self, disk: &mut D) -> Given
    where
        F: DavFile<D>,
        requires { IsHeld F.view (D.state disk.old) self.old }
        ensures done { Polls F.view (D.state disk.old) self.old (answer_of result self.new)
            (D.state disk.new) self.new }
        ensures inside { IsInside result self.new }
        ensures loan { D.loan disk.new ≡ D.loan disk.old }
    {
        if self.next >= self.parts.len() {
            return Given::End;
        }
        match &self.parts[self.next] {
            BodyPart::Text(_) => {
                let at = self.next;
                self.pass(disk);
                Given::Text(at)
            }
            BodyPart::Slice(slice) => {
                let slice = *slice;
                self.step_slice(disk, slice)
            }
        }
    }

    // Makes one poll, where a slice is next.
    fn step_slice<D: Disk>(&mut self, disk: &mut D, slice: Slice) -> Given
    where
        F: DavFile<D>,
        requires held { IsHeld F.view (D.state disk.old) self.old }
        requires next { self.old.next < vec_len self.old.parts }
        requires slice { left_of self.old ≡ SlicePart slice ∷ drop (self.old.next + 1) self.old.parts.items }
        ensures done { Polls F.view (D.state disk.old) self.old (answer_of result self.new)
            (D.state disk.new) self.new }
        ensures inside { IsInside result self.new }
        ensures loan { D.loan disk.new ≡ D.loan disk.old }
    {
        let Some(open) = &mut self.file else {
            unreachable!("a body with a slice has its file");
        };
        match open.fill(disk, slice, self.most, &mut self.buffer) {
            None => {
                self.give_up(disk);
                Given::Broken
            }
            Some(count) => {
                self.advance(disk, slice, count as u64);
                Given::Read(count)
            }
        }
    }

    /// The next piece: a whole text, or bytes of the file as they stand now, or zeros where no byte stands. It takes no
    /// memory. `Broken` comes only where the disk's count of faults rose. The file is ended with the last piece, and
    /// where the body broke; then it is at its end. It asks the disk for nothing where a text is given or nothing is
    /// left, for one read of a slice, and first for a move where the file isn't at the slice.
    pub fn poll_piece<'a, D: Disk>(&'a mut self, disk: &mut D) -> Polled<'a>
    where
        F: DavFile<D>,
        requires { IsHeld F.view (D.state disk.old) self.old }
        ensures* ends { sem 𝓛 (EndsPolled F.row F.view (D.state disk.old)
            (D.state disk.new) self.entry self.old result) }
        ensures bound { IfPiece (answer_in result) (λ piece. length piece ≤ next_most_of (left_of self.old)
            (vec_len self.old.buffer)) }
        ensures loan { D.loan disk.new ≡ D.loan disk.old }
    {
        match self.step(disk) {
            Given::Text(at) => match &self.parts[at] {
                BodyPart::Text(text) => Polled::Piece(text.as_slice()),
                BodyPart::Slice(_) => unreachable!("a text was given"),
            },
            Given::Read(count) => Polled::Piece(&self.buffer[..count]),
            Given::End => Polled::End,
            Given::Broken => Polled::Broken,
        }
    }

    /// Makes the memory of a vector ready for the next piece: it is as long as the body's buffer then, and has room for
    /// a piece of the file. A text is given in its own memory.
    pub fn make_room(&self, spare: Vec<u8>) -> Result<Vec<u8>, NoMemory>
        ensures { IfOk result (λ room. IsRoom (left_of self.now) (vec_len self.now.buffer) (vec_len room)
            (vec_capacity room)) }
    {
        let mut room = spare;
        room.resize(self.buffer.len(), 0)?;
        Ok(room)
    }

    /// The next piece, as `poll_piece` gives it, in memory of its own, as an answer. It takes no memory: a piece of a
    /// file is given in the body's buffer, in whose place the room stands from then on, and a text is moved out of the
    /// body, which keeps none of its memory.
    pub fn take_piece<D: Disk>(&mut self, disk: &mut D, room: Vec<u8>) -> Answer
    where
        F: DavFile<D>,
        requires held { IsHeld F.view (D.state disk.old) self.old }
        requires room { IsRoom (left_of self.old) (vec_len self.old.buffer) (vec_len room) (vec_capacity room) }
        ensures done { IsPolled F.view (D.state disk.old) self.old result (D.state disk.new) self.new }
        ensures loan { D.loan disk.new ≡ D.loan disk.old }
    {
        match self.step(disk) {
            Given::Text(at) => Answer::Piece(take_text(&mut self.parts[at])),
            Given::Read(count) => {
                let bytes = mem::replace(&mut self.buffer, room);
                front_of(bytes, count)
            }
            Given::End => Answer::End,
            Given::Broken => Answer::Broken,
        }
    }

    /// Ends the body, and its file where it is still open.
    pub fn close<D: Disk>(self, disk: &mut D)
    where
        F: DavFile<D>,
        requires { IsHeld F.view (D.state disk.old) self }
        ensures done { Closes F.view.handle (D.state disk.old) self.file (D.state disk.new) }
        ensures loan { D.loan disk.new ≡ D.loan disk.old }
    {
        let GetBody {
            parts: _,
            next: _,
            file,
            most: _,
            buffer: _,
        } = self;
        if let Some(open) = file {
            let OpenAt { file, place: _ } = open;
            file.close(disk);
        }
    }
}
