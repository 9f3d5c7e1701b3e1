// Thunks: code that only leads to other code.
ghost use Rattle.std.specs.Prelude.{◌≡◌, OnErr};
ghost use Rattle.records.specs.Decoded.{decoded_as};
ghost use Rattle.records.specs.declared.SymbolData.TheVariants as SymbolData;
ghost use Rattle.common.specs.Buffer.{Reads};
ghost use Rattle.code.specs.Thunk.{adjustor, thunk_kind, thunk};

use common::Refusal;
use common::buffer::ParseBuffer;
use names::{parse_cstring, parse_symbol_name};
use records::field::{parse_optional_index, parse_place};
use records::{ThunkAdjustor, ThunkKind, ThunkSymbol};

/// Reads an adjustor, or moves nothing. Its target ends in a zero whatever the kind of the record.
fn parse_adjustor(buf: &mut ParseBuffer) -> Result<ThunkKind, Refusal>
    ensures reads { Reads adjustor buf.old result buf.new }
    ensures stays { OnErr result (buf.new.pos ≡ buf.old.pos) }
{
    let mut ahead = *buf;
    let adjustor = ThunkAdjustor {
        delta: ahead.parse()?,
        target: parse_cstring(&mut ahead)?,
    };
    *buf = ahead;
    Ok(ThunkKind::Adjustor(adjustor))
}

/// Reads what stands behind the name of a thunk, by the variant's code, or moves nothing.
pub fn parse_thunk_kind(buf: &mut ParseBuffer, code: u8) -> Result<ThunkKind, Refusal>
    ensures reads { Reads (thunk_kind code) buf.old result buf.new }
    ensures stays { OnErr result (buf.new.pos ≡ buf.old.pos) }
{
    match code {
        0 => Ok(ThunkKind::NoType),
        1 => parse_adjustor(buf),
        2 => Ok(ThunkKind::VCall(buf.parse()?)),
        3 => Ok(ThunkKind::PCode),
        4 => Ok(ThunkKind::Load),
        _ => Ok(ThunkKind::Unknown(code)),
    }
}

#[inline(always)]
pub fn parse_thunk(mut buf: ParseBuffer, kind: u16) -> Result<(ThunkSymbol, usize), Refusal>
    ensures { decoded_as SymbolData.Thunk result ≡ thunk kind buf.entry.bytes.now buf.entry.pos }
{
    let parent = parse_optional_index(&mut buf)?;
    let end = buf.parse()?;
    let next = parse_optional_index(&mut buf)?;
    let offset = parse_place(&mut buf)?;
    let len = buf.parse()?;
    // The code of the variant, whose data come behind the name.
    let code = buf.parse()?;
    let name = parse_symbol_name(&mut buf, kind)?;
    let thunk = ThunkSymbol {
        parent,
        end,
        next,
        offset,
        len,
        kind: parse_thunk_kind(&mut buf, code)?,
        name,
    };
    Ok((thunk, buf.pos))
}
