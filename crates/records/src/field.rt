// Fields that several records share, or that stand for something else than their number.
ghost use Rattle.std.specs.Prelude.{◌≡◌, OnErr};
ghost use Rattle.common.specs.Buffer.{Reads};
ghost use Rattle.records.specs.Field.{index_of, index, module_of, module_index, place};

use super::SectionOffset;
use common::Refusal;
use common::buffer::ParseBuffer;

/// A parent or a next: 0 means none. (No `From`: 0 is none in these fields alone, and neither type is of this crate.)
pub fn index_of(x: u32) -> Option<u32>
    ensures { result ≡ index_of x }
{
    if x == 0 { None } else { Some(x) }
}

/// A module: 0 means none, else it is one less. (No `From`, as above.)
pub fn module_of(x: u16) -> Option<u16>
    ensures { result ≡ module_of x }
{
    x.checked_sub(1)
}

/// Reads a parent or a next, or moves nothing.
#[inline(always)]
pub fn parse_optional_index(buf: &mut ParseBuffer) -> Result<Option<u32>, Refusal>
    ensures reads { Reads index buf.old result buf.new }
    ensures stays { OnErr result (buf.new.pos ≡ buf.old.pos) }
{
    Ok(index_of(buf.parse()?))
}

/// Reads a module, or moves nothing.
#[inline(always)]
pub fn parse_module(buf: &mut ParseBuffer) -> Result<Option<u16>, Refusal>
    ensures reads { Reads module_index buf.old result buf.new }
    ensures stays { OnErr result (buf.new.pos ≡ buf.old.pos) }
{
    Ok(module_of(buf.parse()?))
}

/// Reads a place in the program, or moves nothing.
#[inline(always)]
pub fn parse_place(buf: &mut ParseBuffer) -> Result<SectionOffset, Refusal>
    ensures reads { Reads place buf.old result buf.new }
    ensures stays { OnErr result (buf.new.pos ≡ buf.old.pos) }
{
    let mut ahead = *buf;
    let offset = ahead.parse()?;
    let section = ahead.parse()?;
    *buf = ahead;
    Ok(SectionOffset { offset, section })
}
