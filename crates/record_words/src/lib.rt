// A decoded record as words, in places that the caller lends: the number of its class, the bytes consumed, and its fields.
//
// `field` has the fields that are no plain numbers; the others have the words of the records, in the order of the header's table and in
// the rooms of their decoders, register lists with the data. (A module may not have a crate's name in a program that reaches both.)
#![tactic(auto)]

pub mod code_words;
pub mod compiland_words;
pub mod data_words;
pub mod field;

ghost use Rattle.std.specs.Prelude.{◌≡◌};
ghost use Rattle.words.specs.Written.{written};
ghost use Rattle.record_words.specs.Record.{record_words};

use code_words::{block, inline_site, label, procedure, separated_code, thunk};
use compiland_words::{
    annotation_reference, build_info, compile_flags, data_reference, export_symbol, obj_name,
    procedure_reference, public_symbol, trampoline, using_namespace,
};
use constants::Class;
use data_words::{
    constant, data_item, local, multi_register_variable, register_relative, register_variable,
    thread_storage, user_defined_type,
};
use records::SymbolData;
use words::put;

/// Stores the words of a record, one store for each. It is inlined where a record of one class was made, so that the rest goes.
#[inline(always)]
pub fn write_record(d: &SymbolData, consumed: usize, out: &mut [u64; 24])
    ensures { out.new ≡ written (record_words d.now consumed) out.old }
{
    let n = consumed as u64;
    match d {
        SymbolData::ScopeEnd => put(out, [Class::ScopeEnd as u64, n]),
        SymbolData::ObjName(x) => put(out, obj_name(x, n)),
        SymbolData::RegisterVariable(x) => put(out, register_variable(x, n)),
        SymbolData::Constant(x) => put(out, constant(x, n)),
        SymbolData::UserDefinedType(x) => put(out, user_defined_type(x, n)),
        SymbolData::MultiRegisterVariable(x) => put(out, multi_register_variable(x, n)),
        SymbolData::Data(x) => put(out, data_item(x, n)),
        SymbolData::Public(x) => put(out, public_symbol(x, n)),
        SymbolData::Procedure(x) => put(out, procedure(x, n)),
        SymbolData::ThreadStorage(x) => put(out, thread_storage(x, n)),
        SymbolData::CompileFlags(x) => put(out, compile_flags(x, n)),
        SymbolData::UsingNamespace(x) => put(out, using_namespace(x, n)),
        SymbolData::ProcedureReference(x) => put(out, procedure_reference(x, n)),
        SymbolData::DataReference(x) => put(out, data_reference(x, n)),
        SymbolData::AnnotationReference(x) => put(out, annotation_reference(x, n)),
        SymbolData::Trampoline(x) => put(out, trampoline(x, n)),
        SymbolData::Export(x) => put(out, export_symbol(x, n)),
        SymbolData::Local(x) => put(out, local(x, n)),
        SymbolData::BuildInfo(x) => put(out, build_info(x, n)),
        SymbolData::InlineSite(x) => put(out, inline_site(x, n)),
        SymbolData::InlineSiteEnd => put(out, [Class::InlineSiteEnd as u64, n]),
        SymbolData::ProcedureEnd => put(out, [Class::ProcedureEnd as u64, n]),
        SymbolData::Label(x) => put(out, label(x, n)),
        SymbolData::Block(x) => put(out, block(x, n)),
        SymbolData::RegisterRelative(x) => put(out, register_relative(x, n)),
        SymbolData::Thunk(x) => put(out, thunk(x, n)),
        SymbolData::SeparatedCode(x) => put(out, separated_code(x, n)),
    }
}
