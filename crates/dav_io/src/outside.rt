ghost use Rattle.std.specs.Prelude.{◌<◌, length};
ghost use Rattle.dav_io.specs.Outside.{Stream, Takes, Puts};

use crate::Failed;

/// Gives bytes, in their order.
pub trait Source {
    /// The bytes left, where the source tells them, the count of faults, and how often it was asked.
    ghost stream: { Self → Stream };

    /// Puts bytes at the front of `into`, and answers how many. 0 is the end of the input.
    fn take(&mut self, into: &mut [u8]) -> Result<usize, Failed>
        requires { 0 < length into.old }
        ensures { Takes (stream self.old) into.new result (stream self.new) };
}

/// Takes bytes, in their order.
pub trait Sink {
    /// The bytes written, where the sink tells them, the count of faults, and how often it was asked.
    ghost stream: { Self → Stream };

    /// Takes bytes from the front of `from`, and answers how many, at least one.
    fn put(&mut self, from: &[u8]) -> Result<usize, Failed>
        requires { 0 < length from.now }
        ensures { Puts (stream self.old) from.now result (stream self.new) };
}

impl<S: Source> Source for &mut S {
    ghost stream = { λ s. S.stream s.now };

    fn take(&mut self, into: &mut [u8]) -> Result<usize, Failed> {
        Source::take(&mut **self, into)
    }
}

impl<S: Sink> Sink for &mut S {
    ghost stream = { λ s. S.stream s.now };

    fn put(&mut self, from: &[u8]) -> Result<usize, Failed> {
        Sink::put(&mut **self, from)
    }
}

/// Gives bytes, in their order, to one who shows what was written before. It may be asked only where that suffices: a
/// client that waits for an answer isn't asked for more.
pub trait Client<K: Sink> {
    /// The bytes left, where the client tells them, and the count of faults.
    ghost stream: { Self → Stream };

    /// Whether it may be asked, where this is left and this was written.
    ghost may: { Self → Stream → Stream → Type 0 };

    /// Puts bytes at the front of `into`, and answers how many. 0 is the end of the input.
    fn ask(&mut self, sink: &K, into: &mut [u8]) -> Result<usize, Failed>
        requires room { 0 < length into.old }
        requires ready { may self.old (stream self.old) (K.stream sink.now) }
        ensures takes { Takes (stream self.old) into.new result (stream self.new) }
        ensures stays { (source written : Stream) → may self.old source written → may self.new source written };
}

/// A source waits for nothing.
impl<S: Source, K: Sink> Client<K> for S {
    ghost stream = { λ s. S.stream s };

    ghost may = { λ s source written. Unit {0} };

    fn ask(&mut self, _sink: &K, into: &mut [u8]) -> Result<usize, Failed> {
        self.take(into)
    }
}
