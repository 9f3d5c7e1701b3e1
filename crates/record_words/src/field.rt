// The fields of decoded records that are no plain numbers, as words. (No `From`: neither these types nor u64 are of this crate.)
ghost use Rattle.std.specs.Prelude.{◌≡◌};
ghost use Rattle.record_words.specs.Fields.{variant_number, variant_value, thunk_number, thunk_value, thunk_target};
ghost use Rattle.record_words.specs.Flags.{public_bits, procedure_bits, compile_bits, export_bits, local_bits, separated_bits};

use names::Part;
use records::ThunkKind;
use records::flags::{
    CompileFlags, ExportSymbolFlags, LocalVariableFlags, ProcedureFlags, PublicFlags,
    SeparatedCodeFlags,
};
use variant::Variant;

/// The part that is told where there is none.
pub const NO_PART: Part = Part { start: 0, len: 0 };

/// Which of pdb's variants a value is; between the unsigned ones and the signed ones pdb has an I8.
pub fn variant_number(v: Variant) -> u64
    ensures { result ≡ variant_number v }
{
    match v {
        Variant::U8(_) => 0,
        Variant::U16(_) => 1,
        Variant::U32(_) => 2,
        Variant::U64(_) => 3,
        Variant::I16(_) => 5,
        Variant::I32(_) => 6,
        Variant::I64(_) => 7,
    }
}

/// A value, whatever its variant.
pub fn variant_value(v: Variant) -> u64
    ensures { result ≡ variant_value v }
{
    match v {
        Variant::U8(x) => x as u64,
        Variant::U16(x) => x as u64,
        Variant::U32(x) => x as u64,
        Variant::U64(x) => x,
        Variant::I16(x) => words::signed_word(x),
        Variant::I32(x) => words::signed_word(x),
        Variant::I64(x) => words::signed_word(x),
    }
}

/// The number of a thunk's variant, the number that the variant holds, and the adjustor's target.
pub fn thunk_kind(k: ThunkKind) -> (u64, u64, Part)
    ensures { result ≡ (thunk_number k, thunk_value k, thunk_target k) }
{
    match k {
        ThunkKind::NoType => (0, 0, NO_PART),
        ThunkKind::Adjustor(a) => (1, a.delta as u64, a.target),
        ThunkKind::VCall(entry) => (2, entry as u64, NO_PART),
        ThunkKind::PCode => (3, 0, NO_PART),
        ThunkKind::Load => (4, 0, NO_PART),
        ThunkKind::Unknown(code) => (5, code as u64, NO_PART),
    }
}

pub fn public_bits(f: PublicFlags) -> u64
    ensures { result ≡ public_bits f }
{
    words::bits(&[f.code, f.function, f.managed, f.msil])
}

pub fn procedure_bits(f: ProcedureFlags) -> u64
    ensures { result ≡ procedure_bits f }
{
    words::bits(&[
        f.nofpo,
        f.int,
        f.far,
        f.never,
        f.notreached,
        f.cust_call,
        f.noinline,
        f.optdbginfo,
    ])
}

pub fn compile_bits(f: CompileFlags) -> u64
    ensures { result ≡ compile_bits f }
{
    words::bits(&[
        f.edit_and_continue,
        f.no_debug_info,
        f.link_time_codegen,
        f.no_data_align,
        f.managed,
        f.security_checks,
        f.hot_patch,
        f.cvtcil,
        f.msil_module,
        f.sdl,
        f.pgo,
        f.exp_module,
    ])
}

pub fn export_bits(f: ExportSymbolFlags) -> u64
    ensures { result ≡ export_bits f }
{
    words::bits(&[
        f.constant,
        f.data,
        f.private,
        f.no_name,
        f.ordinal,
        f.forwarder,
    ])
}

pub fn local_bits(f: LocalVariableFlags) -> u64
    ensures { result ≡ local_bits f }
{
    words::bits(&[
        f.isparam,
        f.addrtaken,
        f.compgenx,
        f.isaggregate,
        f.isaliased,
        f.isalias,
        f.isretvalue,
        f.isoptimizedout,
        f.isenreg_glob,
        f.isenreg_stat,
    ])
}

pub fn separated_bits(f: SeparatedCodeFlags) -> u64
    ensures { result ≡ separated_bits f }
{
    words::bits(&[f.islexicalscope, f.returnstoparent])
}
