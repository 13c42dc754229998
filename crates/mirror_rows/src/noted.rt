//! A peer that notes what it is asked for.
use dav_core::DavPath;
use dav_fetch::{Got, Peer, PeerFault};
use dav_io::Fields;
use dav_rows::Line;
use percent_encoding::CONTROLS;
use std::alloc::Global;

/// A peer, and the requests that it got.
pub struct Noted<P: Peer> {
    peer: P,
    line: Line,
}

impl<P: Peer> Noted<P> {
    /// The peer, of which nothing was asked yet.
    pub fn new(alloc: Global, peer: P) -> Self {
        Noted {
            peer,
            line: Line::new(alloc),
        }
    }

    /// What it was asked for.
    pub fn asked(&self) -> &str {
        self.line.as_str()
    }

    /// Gives the peer back.
    pub fn into_peer(self) -> P {
        let Noted { peer, line: _ } = self;
        peer
    }
}

// Notes a request.
fn note(line: &mut Line, path: &DavPath, fields: &Fields) {
    line.add("[");
    match path.with_prefix() {
        Ok(text) => {
            let shown = if text.as_slice().len() < 200 {
                text.as_slice()
            } else {
                "long".as_bytes()
            };
            line.add_bytes(shown, CONTROLS.add(b'%').add(b' '));
        }
        Err(_) => line.refuse(),
    }
    for field in fields.as_slice() {
        line.tell(" ", field.name.as_str());
        line.add("=");
        line.add_bytes(field.value.as_slice(), CONTROLS.add(b'%').add(b' '));
    }
    line.add("]");
}

impl<P: Peer> Peer for Noted<P> {
    ghost state = { λ n. P.state n.peer };

    ghost calls = { λ n. P.calls n.peer };

    ghost loan = { λ n. P.loan n.peer };

    fn get(&mut self, path: &DavPath, fields: &Fields) -> Result<Got, PeerFault> {
        note(&mut self.line, path, fields);
        self.peer.get(path, fields)
    }

    fn piece(&mut self, into: &mut [u8]) -> Result<usize, PeerFault> {
        self.peer.piece(into)
    }
}
