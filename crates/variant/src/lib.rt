// The numeric value of a constant (pdb's Variant): a prefix that is the value itself, or that says how the bytes after it are read.
#![tactic(auto)]

ghost use Rattle.std.specs.Prelude.{◌≡◌, OnErr};
ghost use Rattle.common.specs.Buffer.{Reads};
ghost use Rattle.variant.specs.Numeric.{leaf, numeric};

use common::Refusal;
use common::buffer::ParseBuffer;

/// From this prefix on, the prefix is not the value. (Prefixes are numbers, as in cvinfo.h: a file may have others.)
pub const LF_NUMERIC: u16 = 0x8000;

pub const LF_CHAR: u16 = 0x8000;

pub const LF_SHORT: u16 = 0x8001;

pub const LF_USHORT: u16 = 0x8002;

pub const LF_LONG: u16 = 0x8003;

pub const LF_ULONG: u16 = 0x8004;

pub const LF_QUADWORD: u16 = 0x8009;

pub const LF_UQUADWORD: u16 = 0x800a;

/// A numeric value, in the width and with the sign in which it is stored.
#[derive(Clone, Copy, Debug, PartialEq, Eq)]
pub enum Variant {
    U8(u8),
    U16(u16),
    U32(u32),
    U64(u64),
    I16(i16),
    I32(i32),
    I64(i64),
}

/// Reads what follows a prefix of LF_NUMERIC and above, or moves nothing.
fn parse_leaf(buf: &mut ParseBuffer, prefix: u16) -> Result<Variant, Refusal>
    ensures reads { Reads (leaf prefix) buf.old result buf.new }
    ensures stays { OnErr result (buf.new.pos ≡ buf.old.pos) }
{
    match prefix {
        LF_CHAR => Ok(Variant::U8(buf.parse()?)),
        LF_SHORT => Ok(Variant::I16(buf.parse()?)),
        LF_USHORT => Ok(Variant::U16(buf.parse()?)),
        LF_LONG => Ok(Variant::I32(buf.parse()?)),
        LF_ULONG => Ok(Variant::U32(buf.parse()?)),
        LF_QUADWORD => Ok(Variant::I64(buf.parse()?)),
        LF_UQUADWORD => Ok(Variant::U64(buf.parse()?)),
        _ => Err(Refusal::UnexpectedNumericPrefix(prefix)),
    }
}

/// Reads a numeric value, or moves nothing.
pub fn parse_variant(buf: &mut ParseBuffer) -> Result<Variant, Refusal>
    ensures reads { Reads numeric buf.old result buf.new }
    ensures stays { OnErr result (buf.new.pos ≡ buf.old.pos) }
{
    let mut ahead = *buf;
    let prefix = ahead.parse()?;
    let value = if prefix < LF_NUMERIC {
        Variant::U16(prefix)
    } else {
        parse_leaf(&mut ahead, prefix)?
    };
    *buf = ahead;
    Ok(value)
}
