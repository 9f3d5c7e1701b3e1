// Lent bytes that are read from a position on (pdb's ParseBuffer).
#![tactic(auto, unfolding(crate::specs::Reader::number))]

ghost use Rattle.std.specs.Prelude.{◌≡◌, ◌+◌, drop, length, leb, OnErr};
ghost use Rattle.common.specs.Reader.{number};
ghost use Rattle.common.specs.Buffer.{Reads};

use crate::Refusal;
use crate::number::Number;

/// Lent bytes, and how far they are read.
#[derive(Clone, Copy, Debug)]
pub struct ParseBuffer<'b> {
    /// The bytes, read and unread.
    pub bytes: &'b [u8],

    /// The position of the next byte.
    pub pos: usize,
}

impl<'b> ParseBuffer<'b> {
    /// The bytes, of which none is read.
    pub fn new(bytes: &'b [u8]) -> Self
        ensures bytes { result.bytes ≡ bytes.entry }
        ensures pos { result.pos ≡ 0 }
    {
        ParseBuffer { bytes, pos: 0 }
    }

    /// The bytes that are not read.
    pub fn rest(&self) -> &'b [u8]
        ensures { result.now ≡ drop self.now.pos self.now.bytes.now }
    {
        &self.bytes[self.pos.min(self.bytes.len())..]
    }

    /// Whether at least n bytes are left to read.
    pub fn has_room(&self, n: usize) -> bool
        ensures { result ≡ leb (self.now.pos + n) (length self.now.bytes.now) }
    {
        n <= self.bytes.len() && self.pos <= self.bytes.len() - n
    }

    /// Reads a number, or moves nothing.
    pub fn parse<T: Number>(&mut self) -> Result<T, Refusal>
        ensures reads { Reads (number T.SIZE T.of) self.old result self.new }
        ensures stays { OnErr result (self.new.pos ≡ self.old.pos) }
    {
        if !self.has_room(T::SIZE) {
            return Err(Refusal::UnexpectedEof(0));
        }
        let x = T::at(self.bytes, self.pos);
        self.pos += T::SIZE;
        Ok(x)
    }
}
