ghost use Rattle.std.specs.Prelude.{◌≡◌, ◌<◌, ◌≤◌, Option, None, length};
ghost use Rattle.std.specs.Borrow.{GName};
ghost use Rattle.dav_core.specs.DavPath.{link_of, shown};
ghost use Rattle.dav_core.specs.Disk.{DiskState};
ghost use Rattle.dav_fetch.specs.Peer.{Calls, CountsGet, CountsPiece, PeerState, Gets, Gives, links_most};

use dav_core::DavPath;
use dav_io::Fields;

/// What a server answers before its body: a status and fields.
#[derive(Drop)]
pub struct Got {
    pub status: u16,
    pub headers: Fields,
}

/// Why a peer gives nothing.
#[derive(Clone, Copy, Debug, PartialEq, Eq)]
pub enum PeerFault {
    /// It failed, and its count of faults rose.
    Failed,
    NoMemory,
}

/// A server, asked by path.
pub trait Peer {
    /// The world of its last reply and what is left of that reply's body, where it tells them; the world that it stands
    /// on, where one is known; the path of its last reply, where it names it; and its count of faults.
    ghost state: { Self → PeerState };

    /// How many replies and how many failures it counts, and how many turns the outside had, where it asks a disk.
    ghost calls: { Self → Calls };

    /// The loan that the peer stands on: none, or that of what it asks in place of a server. A call leaves it.
    ghost loan: { Self → Option GName } = { λ _. None };

    /// The states of a disk of which what it asks came by the outside's changes and by reading alone, and how it came.
    /// It says nothing where it asks no disk. What is said before a call is said behind it.
    ghost since: { Self → DiskState → Type 0 } = { λ _ _. Unit {0} };

    /// Asks for a path, and ends the reply before.
    fn get(&mut self, path: &DavPath, fields: &Fields) -> Result<Got, PeerFault>
        requires { length (link_of (shown path.now)) ≤ links_most }
        ensures gets { Gets (state self.old) path.now fields.now result (state self.new) }
        ensures calls { CountsGet (calls self.old) result (calls self.new) }
        ensures loan { loan self.new ≡ loan self.old }
        ensures since { (s : DiskState) → since self.old s → since self.new s };

    /// The next bytes of the last reply's body, put at the front of `into`. 0 is its end.
    fn piece(&mut self, into: &mut [u8]) -> Result<usize, PeerFault>
        requires { 0 < length into.old }
        ensures gives { Gives (state self.old) into.new result (state self.new) }
        ensures calls { CountsPiece (calls self.old) result (calls self.new) }
        ensures loan { loan self.new ≡ loan self.old }
        ensures since { (s : DiskState) → since self.old s → since self.new s };
}
