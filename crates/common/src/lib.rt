// What every layer stands on: the refusal that calls answer with, the numbers that are read from lent bytes (pdb's src/common.rs), and
// bytes that are put in the place of others.
#![tactic(auto)]

pub mod buffer;
pub mod number;
pub mod put;

ghost use Rattle.std.specs.Prelude.{◌≡◌};
ghost use Rattle.common.specs.Refused.{refusal_number, refusal_position, refusal_detail};

use thiserror::Error;

/// Why a call refuses. A position is 0 where the call names none: C is told 0.
#[derive(Clone, Copy, Debug, PartialEq, Eq, Error)]
pub enum Refusal {
    /// 1: the bytes run out, at this position.
    #[error("the bytes run out at {0}")]
    UnexpectedEof(usize),

    /// 2: a length is below the two bytes of a kind; the position is behind the length.
    #[error("a record before {0} has no room for its kind")]
    SymbolTooShort(usize),

    /// 3: no layout is known for this kind.
    #[error("no layout is known for kind {0:#06x}")]
    UnimplementedKind(u16),

    /// 4: a numeric value begins with this unknown prefix.
    #[error("a numeric value has the unknown prefix {0:#06x}")]
    UnexpectedNumericPrefix(u16),

    /// 5: a stream or a record is longer than any that is read.
    #[error("longer than any stream or record that is read")]
    TooLong,

    /// 6: decode refuses the opener at this position.
    #[error("the opener at {0} can't be decoded")]
    UnreadableOpener(usize),

    /// 7: an opener stands at position 0, which means none.
    #[error("an opener stands at position 0")]
    OpenerAt0,

    /// 8: the parent field of the opener at this position is not the innermost open scope.
    #[error("the parent of the opener at {0} is not the innermost scope")]
    WrongParent(usize),

    /// 9: more than 64 scopes lie in one another; the opener that is one too many, where the call names it.
    #[error("too many scopes lie in one another at {0}")]
    TooDeep(usize),

    /// 10: a closer finds nothing open; its position, where the call names it.
    #[error("the closer at {0} finds nothing open")]
    NothingOpen(usize),

    /// 11: the closer at this position is not where its opener's end field says.
    #[error("the closer at {0} is not where its opener says")]
    WrongEnd(usize),

    /// 12: the stream's end leaves the scope at this position open.
    #[error("the scope at {0} is left open")]
    LeftOpen(usize),

    /// 13: a link can't be followed.
    #[error("a link can't be followed")]
    UnusableLink,

    /// 14: no record, opener, register list or entry stands there.
    #[error("nothing of the kind stands there")]
    NothingThere,

    /// 15: the compressed number at this position is cut off or malformed.
    #[error("the compressed number at {0} is cut off or malformed")]
    InvalidCompressedAnnotation(usize),

    /// 16: no instruction of an inline site has this code.
    #[error("no instruction has the code {0}")]
    UnknownBinaryAnnotation(u32),

    /// 17: the next field of the opener at this position names no record.
    #[error("the next of the opener at {0} names no record")]
    WrongNext(usize),

    /// 18: what is lent to be written to is too short.
    #[error("what is lent to be written to is too short")]
    NoRoom,
}

impl Refusal {
    /// The number that the C header gives the refusal.
    pub fn number(self) -> u8
        ensures { result ≡ refusal_number self }
    {
        match self {
            Refusal::UnexpectedEof(_) => 1,
            Refusal::SymbolTooShort(_) => 2,
            Refusal::UnimplementedKind(_) => 3,
            Refusal::UnexpectedNumericPrefix(_) => 4,
            Refusal::TooLong => 5,
            Refusal::UnreadableOpener(_) => 6,
            Refusal::OpenerAt0 => 7,
            Refusal::WrongParent(_) => 8,
            Refusal::TooDeep(_) => 9,
            Refusal::NothingOpen(_) => 10,
            Refusal::WrongEnd(_) => 11,
            Refusal::LeftOpen(_) => 12,
            Refusal::UnusableLink => 13,
            Refusal::NothingThere => 14,
            Refusal::InvalidCompressedAnnotation(_) => 15,
            Refusal::UnknownBinaryAnnotation(_) => 16,
            Refusal::WrongNext(_) => 17,
            Refusal::NoRoom => 18,
        }
    }

    /// The position that it carries, 0 where it carries none.
    pub fn position(self) -> usize
        ensures { result ≡ refusal_position self }
    {
        match self {
            Refusal::UnexpectedEof(at) => at,
            Refusal::SymbolTooShort(at) => at,
            Refusal::UnreadableOpener(at) => at,
            Refusal::WrongParent(at) => at,
            Refusal::TooDeep(at) => at,
            Refusal::NothingOpen(at) => at,
            Refusal::WrongEnd(at) => at,
            Refusal::LeftOpen(at) => at,
            Refusal::InvalidCompressedAnnotation(at) => at,
            Refusal::WrongNext(at) => at,
            _ => 0,
        }
    }

    /// The kind, the prefix or the code that it carries, 0 where it carries none.
    pub fn detail(self) -> u64
        ensures { result ≡ refusal_detail self }
    {
        match self {
            Refusal::UnimplementedKind(kind) => kind as u64,
            Refusal::UnexpectedNumericPrefix(prefix) => prefix as u64,
            Refusal::UnknownBinaryAnnotation(code) => code as u64,
            _ => 0,
        }
    }
}
