// The words of the records that speak of a module as a whole, and of what links it with others.
#![tactic(auto, unfolding(crate::specs::Record::record_words))]

ghost use Rattle.std.specs.Prelude.{◌≡◌};
ghost use Rattle.records.specs.declared.SymbolData.TheVariants as SymbolData;
ghost use Rattle.record_words.specs.Record.{record_words};

use super::field::{NO_PART, compile_bits, export_bits, public_bits};
use constants::Class;
use records::{
    AnnotationReferenceSymbol, BuildInfoSymbol, CompileFlagsSymbol, DataReferenceSymbol,
    ExportSymbol, ObjNameSymbol, ProcedureReferenceSymbol, PublicSymbol, TrampolineSymbol,
    UsingNamespaceSymbol,
};

#[inline(always)]
pub fn obj_name(x: &ObjNameSymbol, consumed: u64) -> [u64; 5]
    ensures { result ≡ record_words (SymbolData.ObjName x.now) consumed }
{
    [
        Class::ObjName as u64,
        consumed,
        x.signature as u64,
        x.name.start as u64,
        x.name.len as u64,
    ]
}

#[inline(always)]
pub fn public_symbol(x: &PublicSymbol, consumed: u64) -> [u64; 7]
    ensures { result ≡ record_words (SymbolData.Public x.now) consumed }
{
    [
        Class::Public as u64,
        consumed,
        public_bits(x.flags),
        x.offset.offset as u64,
        x.offset.section as u64,
        x.name.start as u64,
        x.name.len as u64,
    ]
}

#[inline(always)]
pub fn compile_flags(x: &CompileFlagsSymbol, consumed: u64) -> [u64; 17]
    ensures { result ≡ record_words (SymbolData.CompileFlags x.now) consumed }
{
    let x = *x; // of as many fields behind a reference a proof does not know the ranges
    let front = x.frontend_version;
    let back = x.backend_version;
    [
        Class::CompileFlags as u64,
        consumed,
        x.language as u64,
        compile_bits(x.flags),
        x.cpu_type as u64,
        front.major as u64,
        front.minor as u64,
        front.build as u64,
        front.qfe.is_some() as u64,
        front.qfe.unwrap_or(0) as u64,
        back.major as u64,
        back.minor as u64,
        back.build as u64,
        back.qfe.is_some() as u64,
        back.qfe.unwrap_or(0) as u64,
        x.version_string.start as u64,
        x.version_string.len as u64,
    ]
}

#[inline(always)]
pub fn using_namespace(x: &UsingNamespaceSymbol, consumed: u64) -> [u64; 4]
    ensures { result ≡ record_words (SymbolData.UsingNamespace x.now) consumed }
{
    [
        Class::UsingNamespace as u64,
        consumed,
        x.name.start as u64,
        x.name.len as u64,
    ]
}

#[inline(always)]
pub fn procedure_reference(x: &ProcedureReferenceSymbol, consumed: u64) -> [u64; 10]
    ensures { result ≡ record_words (SymbolData.ProcedureReference x.now) consumed }
{
    let name = x.name.unwrap_or(NO_PART);
    [
        Class::ProcedureReference as u64,
        consumed,
        x.global as u64,
        x.sum_name as u64,
        x.symbol_index as u64,
        x.module.is_some() as u64,
        x.module.unwrap_or(0) as u64,
        x.name.is_some() as u64,
        name.start as u64,
        name.len as u64,
    ]
}

#[inline(always)]
pub fn data_reference(x: &DataReferenceSymbol, consumed: u64) -> [u64; 9]
    ensures { result ≡ record_words (SymbolData.DataReference x.now) consumed }
{
    let name = x.name.unwrap_or(NO_PART);
    [
        Class::DataReference as u64,
        consumed,
        x.sum_name as u64,
        x.symbol_index as u64,
        x.module.is_some() as u64,
        x.module.unwrap_or(0) as u64,
        x.name.is_some() as u64,
        name.start as u64,
        name.len as u64,
    ]
}

#[inline(always)]
pub fn annotation_reference(x: &AnnotationReferenceSymbol, consumed: u64) -> [u64; 8]
    ensures { result ≡ record_words (SymbolData.AnnotationReference x.now) consumed }
{
    [
        Class::AnnotationReference as u64,
        consumed,
        x.sum_name as u64,
        x.symbol_index as u64,
        x.module.is_some() as u64,
        x.module.unwrap_or(0) as u64,
        x.name.start as u64,
        x.name.len as u64,
    ]
}

#[inline(always)]
pub fn trampoline(x: &TrampolineSymbol, consumed: u64) -> [u64; 8]
    ensures { result ≡ record_words (SymbolData.Trampoline x.now) consumed }
{
    [
        Class::Trampoline as u64,
        consumed,
        x.tramp_type as u64,
        x.size as u64,
        x.thunk.offset as u64,
        x.thunk.section as u64,
        x.target.offset as u64,
        x.target.section as u64,
    ]
}

#[inline(always)]
pub fn export_symbol(x: &ExportSymbol, consumed: u64) -> [u64; 6]
    ensures { result ≡ record_words (SymbolData.Export x.now) consumed }
{
    [
        Class::Export as u64,
        consumed,
        x.ordinal as u64,
        export_bits(x.flags),
        x.name.start as u64,
        x.name.len as u64,
    ]
}

#[inline(always)]
pub fn build_info(x: &BuildInfoSymbol, consumed: u64) -> [u64; 3]
    ensures { result ≡ record_words (SymbolData.BuildInfo x.now) consumed }
{
    [Class::BuildInfo as u64, consumed, x.id as u64]
}
