// References to what another module holds: procedures, data and annotations.
ghost use Rattle.std.specs.Prelude.{◌≡◌, OnErr};
ghost use Rattle.records.specs.Decoded.{decoded_as};
ghost use Rattle.records.specs.declared.SymbolData.TheVariants as SymbolData;
ghost use Rattle.common.specs.Buffer.{Reads};
ghost use Rattle.compiland.specs.Reference.{optional_name, procedure_reference, data_reference, annotation_reference};

use common::Refusal;
use common::buffer::ParseBuffer;
use constants::{S_PROCREF, S_PROCREF_ST};
use names::{Part, S_ST_MAX, parse_cstring, parse_symbol_name};
use records::field::parse_module;
use records::{AnnotationReferenceSymbol, DataReferenceSymbol, ProcedureReferenceSymbol};

/// Reads the name of a reference to a procedure or to data, or moves nothing. Kinds below S_ST_MAX do not specify one.
pub fn parse_optional_name(buf: &mut ParseBuffer, kind: u16) -> Result<Option<Part>, Refusal>
    ensures reads { Reads (optional_name kind) buf.old result buf.new }
    ensures stays { OnErr result (buf.new.pos ≡ buf.old.pos) }
{
    if kind < S_ST_MAX {
        return Ok(None);
    }
    Ok(Some(parse_cstring(buf)?))
}

#[inline(always)]
pub fn parse_procedure_reference(
    mut buf: ParseBuffer,
    kind: u16,
) -> Result<(ProcedureReferenceSymbol, usize), Refusal>
    ensures { decoded_as SymbolData.ProcedureReference result ≡ procedure_reference kind buf.entry.bytes.now buf.entry.pos }
{
    let procedure_reference = ProcedureReferenceSymbol {
        global: matches!(kind, S_PROCREF | S_PROCREF_ST),
        sum_name: buf.parse()?,
        symbol_index: buf.parse()?,
        module: parse_module(&mut buf)?,
        name: parse_optional_name(&mut buf, kind)?,
    };
    Ok((procedure_reference, buf.pos))
}

#[inline(always)]
pub fn parse_data_reference(
    mut buf: ParseBuffer,
    kind: u16,
) -> Result<(DataReferenceSymbol, usize), Refusal>
    ensures { decoded_as SymbolData.DataReference result ≡ data_reference kind buf.entry.bytes.now buf.entry.pos }
{
    let data_reference = DataReferenceSymbol {
        sum_name: buf.parse()?,
        symbol_index: buf.parse()?,
        module: parse_module(&mut buf)?,
        name: parse_optional_name(&mut buf, kind)?,
    };
    Ok((data_reference, buf.pos))
}

#[inline(always)]
pub fn parse_annotation_reference(
    mut buf: ParseBuffer,
    kind: u16,
) -> Result<(AnnotationReferenceSymbol, usize), Refusal>
    ensures { decoded_as SymbolData.AnnotationReference result ≡ annotation_reference kind buf.entry.bytes.now buf.entry.pos }
{
    let annotation_reference = AnnotationReferenceSymbol {
        sum_name: buf.parse()?,
        symbol_index: buf.parse()?,
        module: parse_module(&mut buf)?,
        name: parse_symbol_name(&mut buf, kind)?,
    };
    Ok((annotation_reference, buf.pos))
}
