// A record decoded to the typed record of its kind (pdb's Symbol::parse).
#![tactic(auto, unfolding(crate::specs::Decode::decode))]

/// Decodes a record and gives what decode answers to a function, in the arm of its class: there the function is inlined, so that the record
/// is taken apart where it was read, and not copied on its way. (Names stand whole, since they are looked up where it is called.)
#[macro_export]
macro_rules! decode_to {
    (@ $class:ident $record:expr, $take:ident $(, $more:expr)*) => {
        match $record {
            Ok((data, to)) => $take(Ok((records::SymbolData::$class(data), to)) $(, $more)*),
            Err(e) => $take(Err(e) $(, $more)*),
        }
    };
    ($s:ident, $take:ident $(, $more:expr)*) => {{
        let mut buf = common::buffer::ParseBuffer::new($s);
        if $crate::MAX_RECORD < $s.len() {
            $take(Err(common::Refusal::TooLong) $(, $more)*)
        } else {
            match buf.parse::<u16>() {
                Err(short) => $take(Err(short) $(, $more)*),
                Ok(kind) => match constants::class_of(kind) {
                    constants::Class::Unknown => $take(Err(common::Refusal::UnimplementedKind(kind)) $(, $more)*),
                    constants::Class::ScopeEnd => $take(Ok((records::SymbolData::ScopeEnd, buf.pos)) $(, $more)*),
                    constants::Class::ObjName => $crate::decode_to!(@ ObjName compiland::object::parse_obj_name(buf, kind), $take $(, $more)*),
                    constants::Class::RegisterVariable => $crate::decode_to!(@ RegisterVariable data::variable::parse_register_variable(buf, kind), $take $(, $more)*),
                    constants::Class::Constant => $crate::decode_to!(@ Constant data::variable::parse_constant(buf, kind), $take $(, $more)*),
                    constants::Class::UserDefinedType => $crate::decode_to!(@ UserDefinedType data::variable::parse_user_defined_type(buf, kind), $take $(, $more)*),
                    constants::Class::MultiRegisterVariable => $crate::decode_to!(@ MultiRegisterVariable registers::parse_multi_register_variable(buf, kind), $take $(, $more)*),
                    constants::Class::Data => $crate::decode_to!(@ Data data::storage::parse_data(buf, kind), $take $(, $more)*),
                    constants::Class::Public => $crate::decode_to!(@ Public compiland::linkage::parse_public(buf, kind), $take $(, $more)*),
                    constants::Class::Procedure => $crate::decode_to!(@ Procedure code::procedure::parse_procedure(buf, kind), $take $(, $more)*),
                    constants::Class::ThreadStorage => $crate::decode_to!(@ ThreadStorage data::storage::parse_thread_storage(buf, kind), $take $(, $more)*),
                    constants::Class::CompileFlags => $crate::decode_to!(@ CompileFlags compiland::compile::parse_compile_flags(buf, kind), $take $(, $more)*),
                    constants::Class::UsingNamespace => $crate::decode_to!(@ UsingNamespace compiland::object::parse_using_namespace(buf, kind), $take $(, $more)*),
                    constants::Class::ProcedureReference => $crate::decode_to!(@ ProcedureReference compiland::reference::parse_procedure_reference(buf, kind), $take $(, $more)*),
                    constants::Class::DataReference => $crate::decode_to!(@ DataReference compiland::reference::parse_data_reference(buf, kind), $take $(, $more)*),
                    constants::Class::AnnotationReference => $crate::decode_to!(@ AnnotationReference compiland::reference::parse_annotation_reference(buf, kind), $take $(, $more)*),
                    constants::Class::Trampoline => $crate::decode_to!(@ Trampoline compiland::linkage::parse_trampoline(buf), $take $(, $more)*),
                    constants::Class::Export => $crate::decode_to!(@ Export compiland::linkage::parse_export(buf, kind), $take $(, $more)*),
                    constants::Class::Local => $crate::decode_to!(@ Local data::local::parse_local(buf, kind), $take $(, $more)*),
                    constants::Class::BuildInfo => $crate::decode_to!(@ BuildInfo compiland::object::parse_build_info(buf), $take $(, $more)*),
                    constants::Class::InlineSite => $crate::decode_to!(@ InlineSite code::inline_site::parse_inline_site(buf, kind), $take $(, $more)*),
                    constants::Class::InlineSiteEnd => $take(Ok((records::SymbolData::InlineSiteEnd, buf.pos)) $(, $more)*),
                    constants::Class::ProcedureEnd => $take(Ok((records::SymbolData::ProcedureEnd, buf.pos)) $(, $more)*),
                    constants::Class::Label => $crate::decode_to!(@ Label code::procedure::parse_label(buf, kind), $take $(, $more)*),
                    constants::Class::Block => $crate::decode_to!(@ Block code::block::parse_block(buf, kind), $take $(, $more)*),
                    constants::Class::RegisterRelative => $crate::decode_to!(@ RegisterRelative data::local::parse_register_relative(buf, kind), $take $(, $more)*),
                    constants::Class::Thunk => $crate::decode_to!(@ Thunk code::thunk::parse_thunk(buf, kind), $take $(, $more)*),
                    constants::Class::SeparatedCode => $crate::decode_to!(@ SeparatedCode code::block::parse_separated_code(buf), $take $(, $more)*),
                },
            }
        }
    }};
}

pub mod name;
pub mod register_entry;

ghost use Rattle.std.specs.Prelude.{◌≡◌};
ghost use Rattle.symbol.specs.Decode.{decode};

use records::Decoded;

/// The longest record that is decoded.
pub const MAX_RECORD: usize = 0xffff;

/// What decode answers, as it stands.
#[inline(always)]
fn kept(decoded: Decoded) -> Decoded
    ensures { result ≡ decoded }
{
    decoded
}

/// The typed record, and the bytes that it took. It is not inlined: where a caller's arms meet those of the match, the record is copied
/// once more.
#[inline(never)]
pub fn decode(s: &[u8]) -> Decoded
    ensures { result ≡ decode s.now }
{
    decode_to!(s, kept)
}
