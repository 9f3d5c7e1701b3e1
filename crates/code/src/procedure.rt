// Procedures, and the labels in them.
ghost use Rattle.std.specs.Prelude.{◌≡◌};
ghost use Rattle.records.specs.Decoded.{decoded_as};
ghost use Rattle.records.specs.declared.SymbolData.TheVariants as SymbolData;
ghost use Rattle.code.specs.Procedure.{procedure, label};

use common::Refusal;
use common::buffer::ParseBuffer;
use constants::{S_GPROC32, S_GPROC32_ID, S_GPROC32_ST, S_LPROC32_DPC, S_LPROC32_DPC_ID};
use names::parse_symbol_name;
use records::field::{parse_optional_index, parse_place};
use records::flags::ProcedureFlags;
use records::{LabelSymbol, ProcedureSymbol};

#[inline(always)]
pub fn parse_procedure(mut buf: ParseBuffer, kind: u16) -> Result<(ProcedureSymbol, usize), Refusal>
    ensures { decoded_as SymbolData.Procedure result ≡ procedure kind buf.entry.bytes.now buf.entry.pos }
{
    let procedure = ProcedureSymbol {
        global: matches!(kind, S_GPROC32 | S_GPROC32_ST | S_GPROC32_ID),
        dpc: matches!(kind, S_LPROC32_DPC | S_LPROC32_DPC_ID),
        parent: parse_optional_index(&mut buf)?,
        end: buf.parse()?,
        next: parse_optional_index(&mut buf)?,
        len: buf.parse()?,
        dbg_start_offset: buf.parse()?,
        dbg_end_offset: buf.parse()?,
        type_index: buf.parse()?,
        offset: parse_place(&mut buf)?,
        flags: ProcedureFlags::from(buf.parse::<u8>()?),
        name: parse_symbol_name(&mut buf, kind)?,
    };
    Ok((procedure, buf.pos))
}

#[inline(always)]
pub fn parse_label(mut buf: ParseBuffer, kind: u16) -> Result<(LabelSymbol, usize), Refusal>
    ensures { decoded_as SymbolData.Label result ≡ label kind buf.entry.bytes.now buf.entry.pos }
{
    let label = LabelSymbol {
        offset: parse_place(&mut buf)?,
        flags: ProcedureFlags::from(buf.parse::<u8>()?),
        name: parse_symbol_name(&mut buf, kind)?,
    };
    Ok((label, buf.pos))
}
