// Names in lent bytes (pdb's parse_cstring, parse_u8_pascal_string, take and parse_symbol_name).
//
// A name is kept as where it starts and how long it is; `as_bytes` gives the bytes themselves, out of the lent slice.
#![tactic(auto, unfolding(crate::specs::Name::bytes, crate::specs::Name::cstring, crate::specs::Name::symbol_name, crate::specs::Name::bytes_of))]

ghost use Rattle.std.specs.Prelude.{◌≡◌, OnErr, drop};
ghost use Rattle.common.specs.Buffer.{Reads};
ghost use Rattle.names.specs.Name.{run, bytes, cstring, pascal, rest, symbol_name};
ghost use Rattle.names.specs.Lent.{IsPart};

use common::Refusal;
use common::buffer::ParseBuffer;

/// Some of the lent bytes. (Where they stand, and not the bytes themselves: C is told where.)
#[derive(Clone, Copy, Debug, PartialEq, Eq)]
pub struct Part {
    /// The position of the first.
    pub start: usize,

    /// How many they are.
    pub len: usize,
}

/// Kinds below this one have names of a length and bytes, the others names up to a zero. (A number, as all kinds.)
pub const S_ST_MAX: u16 = 0x1100;

/// How many bytes stand before the first zero, or the end.
fn before_zero(s: &[u8]) -> usize
    ensures { result ≡ run s.now }
{
    memchr::memchr(0, s).unwrap_or(s.len())
}

/// How many bytes are looked at one by one in a list of names.
const NEAR: usize = 8;

/// As `before_zero`, of a short name that others follow: `memchr` is made for long ones, and looks at 64 bytes at once.
fn before_near_zero(s: &[u8]) -> usize
    ensures { result ≡ run s.now }
{
    let near = s.len().min(NEAR);
    for n in 0..near {
        if s[n] == 0 {
            return n;
        }
    }
    near + before_zero(&s[near..])
}

/// Takes a name of so many bytes, and the zero behind it, or moves nothing.
#[inline(always)]
fn take_cstring(buf: &mut ParseBuffer, len: usize) -> Result<Part, Refusal>
    requires { len ≡ run (drop buf.old.pos buf.old.bytes.now) }
    ensures reads { Reads cstring buf.old result buf.new }
    ensures stays { OnErr result (buf.new.pos ≡ buf.old.pos) }
{
    let start = buf.pos;
    if buf.rest().len() <= len {
        return Err(Refusal::UnexpectedEof(0));
    }
    buf.pos += len + 1;
    Ok(Part { start, len })
}

/// Reads bytes up to a zero, and the zero, or moves nothing.
#[inline(always)]
pub fn parse_cstring(buf: &mut ParseBuffer) -> Result<Part, Refusal>
    ensures reads { Reads cstring buf.old result buf.new }
    ensures stays { OnErr result (buf.new.pos ≡ buf.old.pos) }
{
    let len = before_zero(buf.rest());
    take_cstring(buf, len)
}

/// Reads n bytes, or moves nothing.
fn take(buf: &mut ParseBuffer, n: usize) -> Result<Part, Refusal>
    ensures reads { Reads (bytes n) buf.old result buf.new }
    ensures stays { OnErr result (buf.new.pos ≡ buf.old.pos) }
{
    let start = buf.pos;
    if !buf.has_room(n) {
        return Err(Refusal::UnexpectedEof(0));
    }
    buf.pos += n;
    Ok(Part { start, len: n })
}

/// Reads a length of one byte, and as many bytes, or moves nothing.
#[inline(always)]
pub fn parse_u8_pascal_string(buf: &mut ParseBuffer) -> Result<Part, Refusal>
    ensures reads { Reads pascal buf.old result buf.new }
    ensures stays { OnErr result (buf.new.pos ≡ buf.old.pos) }
{
    let mut ahead = *buf;
    let len: u8 = ahead.parse()?;
    let name = take(&mut ahead, len as usize)?;
    *buf = ahead;
    Ok(name)
}

/// Reads all that is left, perhaps nothing.
pub fn take_rest(buf: &mut ParseBuffer) -> Part
    ensures { Reads rest buf.old (Ok result) buf.new }
{
    let start = buf.pos;
    let len = buf.rest().len();
    buf.pos = buf.bytes.len();
    Part { start, len }
}

/// Reads the name of a record of this kind, or moves nothing. (Here and in decoders the kind stands beside the buffer, as in pdb: a buffer is
/// of any bytes.)
#[inline(always)]
pub fn parse_symbol_name(buf: &mut ParseBuffer, kind: u16) -> Result<Part, Refusal>
    ensures reads { Reads (symbol_name kind) buf.old result buf.new }
    ensures stays { OnErr result (buf.new.pos ≡ buf.old.pos) }
{
    if kind < S_ST_MAX {
        parse_u8_pascal_string(buf)
    } else {
        parse_cstring(buf)
    }
}

/// Reads the name of an entry in a list of such a kind, or moves nothing.
#[inline(always)]
pub fn parse_listed_name(buf: &mut ParseBuffer, kind: u16) -> Result<Part, Refusal>
    ensures reads { Reads (symbol_name kind) buf.old result buf.new }
    ensures stays { OnErr result (buf.new.pos ≡ buf.old.pos) }
{
    if S_ST_MAX <= kind {
        let len = before_near_zero(buf.rest());
        return take_cstring(buf, len);
    }
    parse_u8_pascal_string(buf)
}

/// The bytes of a part, and none where it does not lie within the lent bytes.
pub fn as_bytes(s: &[u8], p: Part) -> &[u8]
    ensures { IsPart s.entry p result }
{
    let buf = ParseBuffer {
        bytes: s,
        pos: p.start,
    };
    if buf.has_room(p.len) {
        &s[p.start..p.start + p.len]
    } else {
        &s[..0]
    }
}
