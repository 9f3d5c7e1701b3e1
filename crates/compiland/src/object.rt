// The records about the module itself: its object file, its namespaces and its build information.
ghost use Rattle.std.specs.Prelude.{◌≡◌};
ghost use Rattle.records.specs.Decoded.{decoded_as};
ghost use Rattle.records.specs.declared.SymbolData.TheVariants as SymbolData;
ghost use Rattle.compiland.specs.Object.{obj_name, using_namespace, build_info};

use common::Refusal;
use common::buffer::ParseBuffer;
use names::parse_symbol_name;
use records::{BuildInfoSymbol, ObjNameSymbol, UsingNamespaceSymbol};

#[inline(always)]
pub fn parse_obj_name(mut buf: ParseBuffer, kind: u16) -> Result<(ObjNameSymbol, usize), Refusal>
    ensures { decoded_as SymbolData.ObjName result ≡ obj_name kind buf.entry.bytes.now buf.entry.pos }
{
    let obj_name = ObjNameSymbol {
        signature: buf.parse()?,
        name: parse_symbol_name(&mut buf, kind)?,
    };
    Ok((obj_name, buf.pos))
}

#[inline(always)]
pub fn parse_using_namespace(
    mut buf: ParseBuffer,
    kind: u16,
) -> Result<(UsingNamespaceSymbol, usize), Refusal>
    ensures { decoded_as SymbolData.UsingNamespace result ≡ using_namespace kind buf.entry.bytes.now buf.entry.pos }
{
    let using_namespace = UsingNamespaceSymbol {
        name: parse_symbol_name(&mut buf, kind)?,
    };
    Ok((using_namespace, buf.pos))
}

#[inline(always)]
pub fn parse_build_info(mut buf: ParseBuffer) -> Result<(BuildInfoSymbol, usize), Refusal>
    ensures { decoded_as SymbolData.BuildInfo result ≡ build_info buf.entry.bytes.now buf.entry.pos }
{
    let build_info = BuildInfoSymbol { id: buf.parse()? };
    Ok((build_info, buf.pos))
}
