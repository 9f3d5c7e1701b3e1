// Blocks, and code that stands apart from its procedure.
ghost use Rattle.std.specs.Prelude.{◌≡◌};
ghost use Rattle.records.specs.Decoded.{decoded_as};
ghost use Rattle.records.specs.declared.SymbolData.TheVariants as SymbolData;
ghost use Rattle.code.specs.Block.{block, separated_code};

use common::Refusal;
use common::buffer::ParseBuffer;
use names::parse_symbol_name;
use records::field::parse_place;
use records::flags::SeparatedCodeFlags;
use records::{BlockSymbol, SectionOffset, SeparatedCodeSymbol};

#[inline(always)]
pub fn parse_block(mut buf: ParseBuffer, kind: u16) -> Result<(BlockSymbol, usize), Refusal>
    ensures { decoded_as SymbolData.Block result ≡ block kind buf.entry.bytes.now buf.entry.pos }
{
    let block = BlockSymbol {
        parent: buf.parse()?,
        end: buf.parse()?,
        len: buf.parse()?,
        offset: parse_place(&mut buf)?,
        name: parse_symbol_name(&mut buf, kind)?,
    };
    Ok((block, buf.pos))
}

#[inline(always)]
pub fn parse_separated_code(mut buf: ParseBuffer) -> Result<(SeparatedCodeSymbol, usize), Refusal>
    ensures { decoded_as SymbolData.SeparatedCode result ≡ separated_code buf.entry.bytes.now buf.entry.pos }
{
    let parent = buf.parse()?;
    let end = buf.parse()?;
    let len = buf.parse()?;
    let flags = SeparatedCodeFlags::from(buf.parse::<u32>()?);
    // Each offset stands apart from its section.
    let offset = buf.parse()?;
    let parent_offset = buf.parse()?;
    let section = buf.parse()?;
    let parent_section = buf.parse()?;
    let separated_code = SeparatedCodeSymbol {
        parent,
        end,
        len,
        flags,
        offset: SectionOffset { offset, section },
        parent_offset: SectionOffset {
            offset: parent_offset,
            section: parent_section,
        },
    };
    Ok((separated_code, buf.pos))
}
