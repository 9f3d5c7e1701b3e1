// Register lists: a variable that lies in several registers.
//
// pdb collects the entries in a Vec. Here the record keeps their count and where the first one stands; module entry reads them. The kind
// stands beside the buffer, as in pdb.
#![tactic(auto)]

pub mod entry;

ghost use Rattle.std.specs.Prelude.{◌≡◌, OnErr};
ghost use Rattle.records.specs.Decoded.{decoded_as};
ghost use Rattle.records.specs.declared.SymbolData.TheVariants as SymbolData;
ghost use Rattle.common.specs.Buffer.{Reads};
ghost use Rattle.registers.specs.Registers.{register_count, multi_register_variable};

use common::Refusal;
use common::buffer::ParseBuffer;
use constants::{S_MANYREG2, S_MANYREG2_ST};
use records::MultiRegisterVariableSymbol;

/// Reads how many entries a list has, or moves nothing.
pub fn parse_register_count(buf: &mut ParseBuffer, kind: u16) -> Result<u16, Refusal>
    ensures reads { Reads (register_count kind) buf.old result buf.new }
    ensures stays { OnErr result (buf.new.pos ≡ buf.old.pos) }
{
    if matches!(kind, S_MANYREG2 | S_MANYREG2_ST) {
        return buf.parse();
    }
    Ok(u16::from(buf.parse::<u8>()?))
}

#[inline(always)]
pub fn parse_multi_register_variable(
    mut buf: ParseBuffer,
    kind: u16,
) -> Result<(MultiRegisterVariableSymbol, usize), Refusal>
    ensures { decoded_as SymbolData.MultiRegisterVariable result ≡ multi_register_variable kind buf.entry.bytes.now buf.entry.pos }
{
    let type_index = buf.parse()?;
    let count = parse_register_count(&mut buf, kind)?;
    let first = buf.pos;
    entry::skip_entries(&mut buf, kind, count)?;
    let multi_register_variable = MultiRegisterVariableSymbol {
        type_index,
        count,
        first,
    };
    Ok((multi_register_variable, buf.pos))
}
