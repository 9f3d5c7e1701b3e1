// The records of variables that lie in memory: data and thread storage.
ghost use Rattle.std.specs.Prelude.{◌≡◌};
ghost use Rattle.records.specs.Decoded.{decoded_as};
ghost use Rattle.records.specs.declared.SymbolData.TheVariants as SymbolData;
ghost use Rattle.data.specs.Storage.{data_item, thread_storage};

use common::Refusal;
use common::buffer::ParseBuffer;
use constants::{
    S_GDATA32, S_GDATA32_ST, S_GMANDATA, S_GMANDATA_ST, S_GTHREAD32, S_GTHREAD32_ST, S_LMANDATA,
    S_LMANDATA_ST,
};
use names::parse_symbol_name;
use records::field::parse_place;
use records::{DataSymbol, ThreadStorageSymbol};

#[inline(always)]
pub fn parse_data(mut buf: ParseBuffer, kind: u16) -> Result<(DataSymbol, usize), Refusal>
    ensures { decoded_as SymbolData.Data result ≡ data_item kind buf.entry.bytes.now buf.entry.pos }
{
    let data = DataSymbol {
        global: matches!(kind, S_GDATA32 | S_GDATA32_ST | S_GMANDATA | S_GMANDATA_ST),
        managed: matches!(
            kind,
            S_LMANDATA | S_LMANDATA_ST | S_GMANDATA | S_GMANDATA_ST
        ),
        type_index: buf.parse()?,
        offset: parse_place(&mut buf)?,
        name: parse_symbol_name(&mut buf, kind)?,
    };
    Ok((data, buf.pos))
}

#[inline(always)]
pub fn parse_thread_storage(
    mut buf: ParseBuffer,
    kind: u16,
) -> Result<(ThreadStorageSymbol, usize), Refusal>
    ensures { decoded_as SymbolData.ThreadStorage result ≡ thread_storage kind buf.entry.bytes.now buf.entry.pos }
{
    let thread_storage = ThreadStorageSymbol {
        global: matches!(kind, S_GTHREAD32 | S_GTHREAD32_ST),
        type_index: buf.parse()?,
        offset: parse_place(&mut buf)?,
        name: parse_symbol_name(&mut buf, kind)?,
    };
    Ok((thread_storage, buf.pos))
}
