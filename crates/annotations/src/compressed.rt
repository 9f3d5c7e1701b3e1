// Compressed numbers, in which annotations are written.
#![tactic(auto, unfolding(crate::specs::Compressed::compressed, common::specs::Bytes::be))]

ghost use Rattle.std.specs.Prelude.{◌≡◌, OnErr};
ghost use Rattle.common.specs.Buffer.{Reads};
ghost use Rattle.annotations.specs.Compressed.{compressed, signed_operand};

use common::Refusal;
use common::buffer::ParseBuffer;

/// Reads a compressed number, or moves nothing: one, two or four bytes, the highest first, as the uppermost bits of the first say.
pub fn parse_compressed(buf: &mut ParseBuffer) -> Result<u32, Refusal>
    ensures reads { Reads compressed buf.old result buf.new }
    ensures stays { OnErr result (buf.new.pos ≡ buf.old.pos) }
{
    match buf.rest() {
        [a, ..] if *a < 0x80 => {
            buf.pos += 1;
            Ok(u32::from(*a))
        }
        [a, b, ..] if *a < 0xc0 => {
            buf.pos += 2;
            Ok(u32::from(u16::from_be_bytes([*a, *b]) % 0x4000))
        }
        [a, b, c, d, ..] if *a < 0xe0 => {
            buf.pos += 4;
            Ok(u32::from_be_bytes([*a, *b, *c, *d]) % 0x2000_0000)
        }
        _ => Err(Refusal::InvalidCompressedAnnotation(buf.pos)),
    }
}

/// The signed number that a compressed one stands for: the lowest bit is its sign.
pub fn signed_operand(x: u32) -> i32
    ensures { result ≡ signed_operand x }
{
    let size = (x / 2) as i32;
    if x % 2 == 0 { size } else { -size }
}
