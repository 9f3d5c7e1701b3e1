// The words of the records that speak of code.
#![tactic(auto, unfolding(crate::specs::Record::record_words))]

ghost use Rattle.std.specs.Prelude.{◌≡◌};
ghost use Rattle.records.specs.declared.SymbolData.TheVariants as SymbolData;
ghost use Rattle.record_words.specs.Record.{record_words};

use super::field::{procedure_bits, separated_bits, thunk_kind};
use constants::Class;
use records::{
    BlockSymbol, InlineSiteSymbol, LabelSymbol, ProcedureSymbol, SeparatedCodeSymbol, ThunkSymbol,
};

#[inline(always)]
pub fn procedure(x: &ProcedureSymbol, consumed: u64) -> [u64; 16]
    ensures { result ≡ record_words (SymbolData.Procedure x.now) consumed }
{
    [
        Class::Procedure as u64,
        consumed,
        x.global as u64,
        x.dpc as u64,
        x.parent.unwrap_or(0) as u64,
        x.end as u64,
        x.next.unwrap_or(0) as u64,
        x.len as u64,
        x.dbg_start_offset as u64,
        x.dbg_end_offset as u64,
        x.type_index as u64,
        x.offset.offset as u64,
        x.offset.section as u64,
        procedure_bits(x.flags),
        x.name.start as u64,
        x.name.len as u64,
    ]
}

#[inline(always)]
pub fn inline_site(x: &InlineSiteSymbol, consumed: u64) -> [u64; 9]
    ensures { result ≡ record_words (SymbolData.InlineSite x.now) consumed }
{
    [
        Class::InlineSite as u64,
        consumed,
        x.parent.unwrap_or(0) as u64,
        x.end as u64,
        x.inlinee as u64,
        x.invocations.is_some() as u64,
        x.invocations.unwrap_or(0) as u64,
        x.annotations.start as u64,
        x.annotations.len as u64,
    ]
}

#[inline(always)]
pub fn label(x: &LabelSymbol, consumed: u64) -> [u64; 7]
    ensures { result ≡ record_words (SymbolData.Label x.now) consumed }
{
    [
        Class::Label as u64,
        consumed,
        x.offset.offset as u64,
        x.offset.section as u64,
        procedure_bits(x.flags),
        x.name.start as u64,
        x.name.len as u64,
    ]
}

#[inline(always)]
pub fn block(x: &BlockSymbol, consumed: u64) -> [u64; 9]
    ensures { result ≡ record_words (SymbolData.Block x.now) consumed }
{
    [
        Class::Block as u64,
        consumed,
        x.parent as u64,
        x.end as u64,
        x.len as u64,
        x.offset.offset as u64,
        x.offset.section as u64,
        x.name.start as u64,
        x.name.len as u64,
    ]
}

#[inline(always)]
pub fn thunk(x: &ThunkSymbol, consumed: u64) -> [u64; 14]
    ensures { result ≡ record_words (SymbolData.Thunk x.now) consumed }
{
    let (kind, value, target) = thunk_kind(x.kind);
    [
        Class::Thunk as u64,
        consumed,
        x.parent.unwrap_or(0) as u64,
        x.end as u64,
        x.next.unwrap_or(0) as u64,
        x.offset.offset as u64,
        x.offset.section as u64,
        x.len as u64,
        kind,
        value,
        target.start as u64,
        target.len as u64,
        x.name.start as u64,
        x.name.len as u64,
    ]
}

#[inline(always)]
pub fn separated_code(x: &SeparatedCodeSymbol, consumed: u64) -> [u64; 10]
    ensures { result ≡ record_words (SymbolData.SeparatedCode x.now) consumed }
{
    [
        Class::SeparatedCode as u64,
        consumed,
        x.parent as u64,
        x.end as u64,
        x.len as u64,
        separated_bits(x.flags),
        x.offset.offset as u64,
        x.offset.section as u64,
        x.parent_offset.offset as u64,
        x.parent_offset.section as u64,
    ]
}
