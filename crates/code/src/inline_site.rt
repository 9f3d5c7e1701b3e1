// Inline sites: where a procedure's body stands in place of a call.
ghost use Rattle.std.specs.Prelude.{◌≡◌, OnErr};
ghost use Rattle.records.specs.Decoded.{decoded_as};
ghost use Rattle.records.specs.declared.SymbolData.TheVariants as SymbolData;
ghost use Rattle.common.specs.Buffer.{Reads};
ghost use Rattle.code.specs.Inline.{invocations, inline_site};

use common::Refusal;
use common::buffer::ParseBuffer;
use constants::S_INLINESITE2;
use records::InlineSiteSymbol;
use records::field::parse_optional_index;

/// Reads the count of invocations, if the kind has one, or moves nothing.
pub fn parse_invocations(buf: &mut ParseBuffer, kind: u16) -> Result<Option<u32>, Refusal>
    ensures reads { Reads (invocations kind) buf.old result buf.new }
    ensures stays { OnErr result (buf.new.pos ≡ buf.old.pos) }
{
    if kind != S_INLINESITE2 {
        return Ok(None);
    }
    Ok(Some(buf.parse()?))
}

#[inline(always)]
pub fn parse_inline_site(
    mut buf: ParseBuffer,
    kind: u16,
) -> Result<(InlineSiteSymbol, usize), Refusal>
    ensures { decoded_as SymbolData.InlineSite result ≡ inline_site kind buf.entry.bytes.now buf.entry.pos }
{
    let inline_site = InlineSiteSymbol {
        parent: parse_optional_index(&mut buf)?,
        end: buf.parse()?,
        inlinee: buf.parse()?,
        invocations: parse_invocations(&mut buf, kind)?,
        annotations: names::take_rest(&mut buf),
    };
    Ok((inline_site, buf.pos))
}
