ghost use Rattle.std.specs.Prelude.{◌≡◌, ◌≤◌, ◌<◌, ◌+◌, ◌^◌, length, replicate, take, true};
ghost use Rattle.dav_core.specs.Disk.{can_read};
ghost use Rattle.dav_get.specs.declared.part.BodyPart.TheVariants.{Slice as SlicePart};
ghost use Rattle.dav_get.specs.Bodies.{has_room};
ghost use Rattle.dav_get.specs.OpenFiles.{IsAt, Moves, Fills};

use crate::buffer::ZEROS_SIZE;
use dav_core::Disk;
use dav_model::Slice;
use dav_store::DavFile;

/// An open file, and the place at which it stands.
#[derive(Drop)]
pub struct OpenAt<F> {
    pub file: F,
    pub place: u64,
}

// Puts so many zeros to the front.
fn put_zeros(into: &mut [u8], count: usize)
    requires { count ≤ length into.old }
    ensures front { take count into.new ≡ replicate count 0 }
    ensures len { length into.new ≡ length into.old }
{
    into[..count].fill(0);
}

impl<F> OpenAt<F> {
    // Moves the file to a place, where it isn't there. It answers whether it is there.
    fn move_to<D: Disk>(&mut self, disk: &mut D, start: u64) -> bool
    where
        F: DavFile<D>,
        requires { IsAt F.view (D.state disk.old) self.old }
        ensures done { Moves F.view (D.state disk.old) self.old start result (D.state disk.new) self.new }
        ensures loan { D.loan disk.new ≡ D.loan disk.old }
    {
        if self.place == start {
            return true;
        }
        if self.file.seek(disk, start).is_err() {
            return false;
        }
        self.place = start;
        true
    }

    // Reads the front of a slice that begins where the file stands.
    fn read_here<D: Disk>(
        &mut self,
        disk: &mut D,
        slice: Slice,
        most: usize,
        into: &mut [u8],
    ) -> Option<usize>
    where
        F: DavFile<D>,
        requires at { IsAt F.view (D.state disk.old) self.old }
        requires here { self.old.place ≡ slice.start }
        requires slice { 0 < slice.count }
        requires fits { slice.start + slice.count < 2 ^ 64 }
        requires some { 0 < most }
        requires room { has_room most (length into.old) (SlicePart slice) ≡ true }
        ensures done { Fills F.view (D.state disk.old) self.old slice most into.new result
            (D.state disk.new) self.new }
        ensures loan { D.loan disk.new ≡ D.loan disk.old }
    {
        let wanted = slice.count.min(most as u64) as usize;
        prove!(wanted <= into.len());
        match self.file.read_into(disk, &mut into[..wanted]) {
            Err(_) => None,
            Ok(0) => {
                let zeros = slice.count.min(ZEROS_SIZE as u64) as usize;
                prove!(zeros <= into.len());
                put_zeros(into, zeros);
                Some(zeros)
            }
            Ok(count) => {
                self.place = slice.start + count as u64;
                Some(count)
            }
        }
    }

    /// Puts the next piece of a slice at the front of `into`, and answers its length; or None, where the disk failed.
    pub(crate) fn fill<D: Disk>(
        &mut self,
        disk: &mut D,
        slice: Slice,
        most: usize,
        into: &mut [u8],
    ) -> Option<usize>
    where
        F: DavFile<D>,
        requires at { IsAt F.view (D.state disk.old) self.old }
        requires slice { 0 < slice.count }
        requires fits { slice.start + slice.count < 2 ^ 64 }
        requires some { 0 < most }
        requires room { has_room most (length into.old) (SlicePart slice) ≡ true }
        ensures done { Fills F.view (D.state disk.old) self.old slice most into.new result
            (D.state disk.new) self.new }
        ensures loan { D.loan disk.new ≡ D.loan disk.old }
    {
        if !self.move_to(disk, slice.start) {
            return None;
        }
        self.read_here(disk, slice, most, into)
    }
}
