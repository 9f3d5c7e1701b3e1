// The words of the records that speak of data and of types.
#![tactic(auto, unfolding(crate::specs::Record::record_words))]

ghost use Rattle.std.specs.Prelude.{◌≡◌};
ghost use Rattle.records.specs.declared.SymbolData.TheVariants as SymbolData;
ghost use Rattle.record_words.specs.Record.{record_words};

use super::field::{local_bits, variant_number, variant_value};
use constants::Class;
use records::{
    ConstantSymbol, DataSymbol, LocalSymbol, MultiRegisterVariableSymbol, RegisterRelativeSymbol,
    RegisterVariableSymbol, ThreadStorageSymbol, UserDefinedTypeSymbol,
};

#[inline(always)]
pub fn register_variable(x: &RegisterVariableSymbol, consumed: u64) -> [u64; 6]
    ensures { result ≡ record_words (SymbolData.RegisterVariable x.now) consumed }
{
    [
        Class::RegisterVariable as u64,
        consumed,
        x.type_index as u64,
        x.register as u64,
        x.name.start as u64,
        x.name.len as u64,
    ]
}

#[inline(always)]
pub fn constant(x: &ConstantSymbol, consumed: u64) -> [u64; 8]
    ensures { result ≡ record_words (SymbolData.Constant x.now) consumed }
{
    [
        Class::Constant as u64,
        consumed,
        x.managed as u64,
        x.type_index as u64,
        variant_number(x.value),
        variant_value(x.value),
        x.name.start as u64,
        x.name.len as u64,
    ]
}

#[inline(always)]
pub fn user_defined_type(x: &UserDefinedTypeSymbol, consumed: u64) -> [u64; 5]
    ensures { result ≡ record_words (SymbolData.UserDefinedType x.now) consumed }
{
    [
        Class::UserDefinedType as u64,
        consumed,
        x.type_index as u64,
        x.name.start as u64,
        x.name.len as u64,
    ]
}

#[inline(always)]
pub fn multi_register_variable(x: &MultiRegisterVariableSymbol, consumed: u64) -> [u64; 5]
    ensures { result ≡ record_words (SymbolData.MultiRegisterVariable x.now) consumed }
{
    [
        Class::MultiRegisterVariable as u64,
        consumed,
        x.type_index as u64,
        x.count as u64,
        x.first as u64,
    ]
}

#[inline(always)]
pub fn data_item(x: &DataSymbol, consumed: u64) -> [u64; 9]
    ensures { result ≡ record_words (SymbolData.Data x.now) consumed }
{
    [
        Class::Data as u64,
        consumed,
        x.global as u64,
        x.managed as u64,
        x.type_index as u64,
        x.offset.offset as u64,
        x.offset.section as u64,
        x.name.start as u64,
        x.name.len as u64,
    ]
}

#[inline(always)]
pub fn thread_storage(x: &ThreadStorageSymbol, consumed: u64) -> [u64; 8]
    ensures { result ≡ record_words (SymbolData.ThreadStorage x.now) consumed }
{
    [
        Class::ThreadStorage as u64,
        consumed,
        x.global as u64,
        x.type_index as u64,
        x.offset.offset as u64,
        x.offset.section as u64,
        x.name.start as u64,
        x.name.len as u64,
    ]
}

#[inline(always)]
pub fn local(x: &LocalSymbol, consumed: u64) -> [u64; 6]
    ensures { result ≡ record_words (SymbolData.Local x.now) consumed }
{
    [
        Class::Local as u64,
        consumed,
        x.type_index as u64,
        local_bits(x.flags),
        x.name.start as u64,
        x.name.len as u64,
    ]
}

#[inline(always)]
pub fn register_relative(x: &RegisterRelativeSymbol, consumed: u64) -> [u64; 7]
    ensures { result ≡ record_words (SymbolData.RegisterRelative x.now) consumed }
{
    [
        Class::RegisterRelative as u64,
        consumed,
        words::signed_word(x.offset),
        x.type_index as u64,
        x.register as u64,
        x.name.start as u64,
        x.name.len as u64,
    ]
}
