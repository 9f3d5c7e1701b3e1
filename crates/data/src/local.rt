// The records of local variables: locals, and variables relative to a register.
ghost use Rattle.std.specs.Prelude.{◌≡◌};
ghost use Rattle.records.specs.Decoded.{decoded_as};
ghost use Rattle.records.specs.declared.SymbolData.TheVariants as SymbolData;
ghost use Rattle.data.specs.Local.{local, register_relative};

use common::Refusal;
use common::buffer::ParseBuffer;
use names::parse_symbol_name;
use records::flags::LocalVariableFlags;
use records::{LocalSymbol, RegisterRelativeSymbol};

#[inline(always)]
pub fn parse_local(mut buf: ParseBuffer, kind: u16) -> Result<(LocalSymbol, usize), Refusal>
    ensures { decoded_as SymbolData.Local result ≡ local kind buf.entry.bytes.now buf.entry.pos }
{
    let local = LocalSymbol {
        type_index: buf.parse()?,
        flags: LocalVariableFlags::from(buf.parse::<u16>()?),
        name: parse_symbol_name(&mut buf, kind)?,
    };
    Ok((local, buf.pos))
}

#[inline(always)]
pub fn parse_register_relative(
    mut buf: ParseBuffer,
    kind: u16,
) -> Result<(RegisterRelativeSymbol, usize), Refusal>
    ensures { decoded_as SymbolData.RegisterRelative result ≡ register_relative kind buf.entry.bytes.now buf.entry.pos }
{
    let register_relative = RegisterRelativeSymbol {
        offset: buf.parse()?,
        type_index: buf.parse()?,
        register: buf.parse()?,
        name: parse_symbol_name(&mut buf, kind)?,
    };
    Ok((register_relative, buf.pos))
}
