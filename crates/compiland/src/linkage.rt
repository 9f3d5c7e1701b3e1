// What the linker writes: publics, exports and trampolines.
ghost use Rattle.std.specs.Prelude.{◌≡◌};
ghost use Rattle.records.specs.Decoded.{decoded_as};
ghost use Rattle.records.specs.declared.SymbolData.TheVariants as SymbolData;
ghost use Rattle.compiland.specs.Linkage.{public_symbol, export_symbol, trampoline};

use common::Refusal;
use common::buffer::ParseBuffer;
use names::parse_symbol_name;
use records::field::parse_place;
use records::flags::{ExportSymbolFlags, PublicFlags};
use records::{ExportSymbol, PublicSymbol, SectionOffset, TrampolineSymbol, TrampolineType};

#[inline(always)]
pub fn parse_public(mut buf: ParseBuffer, kind: u16) -> Result<(PublicSymbol, usize), Refusal>
    ensures { decoded_as SymbolData.Public result ≡ public_symbol kind buf.entry.bytes.now buf.entry.pos }
{
    let public = PublicSymbol {
        flags: PublicFlags::from(buf.parse::<u32>()?),
        offset: parse_place(&mut buf)?,
        name: parse_symbol_name(&mut buf, kind)?,
    };
    Ok((public, buf.pos))
}

#[inline(always)]
pub fn parse_export(mut buf: ParseBuffer, kind: u16) -> Result<(ExportSymbol, usize), Refusal>
    ensures { decoded_as SymbolData.Export result ≡ export_symbol kind buf.entry.bytes.now buf.entry.pos }
{
    let export = ExportSymbol {
        ordinal: buf.parse()?,
        flags: ExportSymbolFlags::from(buf.parse::<u16>()?),
        name: parse_symbol_name(&mut buf, kind)?,
    };
    Ok((export, buf.pos))
}

#[inline(always)]
pub fn parse_trampoline(mut buf: ParseBuffer) -> Result<(TrampolineSymbol, usize), Refusal>
    ensures { decoded_as SymbolData.Trampoline result ≡ trampoline buf.entry.bytes.now buf.entry.pos }
{
    let tramp_type = TrampolineType::from(buf.parse::<u16>()?);
    let size = buf.parse()?;
    // Each offset stands apart from its section.
    let thunk_offset = buf.parse()?;
    let target_offset = buf.parse()?;
    let thunk_section = buf.parse()?;
    let target_section = buf.parse()?;
    let trampoline = TrampolineSymbol {
        tramp_type,
        size,
        thunk: SectionOffset {
            offset: thunk_offset,
            section: thunk_section,
        },
        target: SectionOffset {
            offset: target_offset,
            section: target_section,
        },
    };
    Ok((trampoline, buf.pos))
}
