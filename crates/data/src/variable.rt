// The records of register variables, constants and types.
ghost use Rattle.std.specs.Prelude.{◌≡◌};
ghost use Rattle.records.specs.Decoded.{decoded_as};
ghost use Rattle.records.specs.declared.SymbolData.TheVariants as SymbolData;
ghost use Rattle.data.specs.Variable.{register_variable, user_defined_type, constant};

use common::Refusal;
use common::buffer::ParseBuffer;
use constants::S_MANCONSTANT;
use names::parse_symbol_name;
use records::{ConstantSymbol, RegisterVariableSymbol, UserDefinedTypeSymbol};
use variant::parse_variant;

#[inline(always)]
pub fn parse_register_variable(
    mut buf: ParseBuffer,
    kind: u16,
) -> Result<(RegisterVariableSymbol, usize), Refusal>
    ensures { decoded_as SymbolData.RegisterVariable result ≡ register_variable kind buf.entry.bytes.now buf.entry.pos }
{
    let register_variable = RegisterVariableSymbol {
        type_index: buf.parse()?,
        register: buf.parse()?,
        name: parse_symbol_name(&mut buf, kind)?,
    };
    Ok((register_variable, buf.pos))
}

#[inline(always)]
pub fn parse_constant(mut buf: ParseBuffer, kind: u16) -> Result<(ConstantSymbol, usize), Refusal>
    ensures { decoded_as SymbolData.Constant result ≡ constant kind buf.entry.bytes.now buf.entry.pos }
{
    let constant = ConstantSymbol {
        managed: kind == S_MANCONSTANT,
        type_index: buf.parse()?,
        value: parse_variant(&mut buf)?,
        name: parse_symbol_name(&mut buf, kind)?,
    };
    Ok((constant, buf.pos))
}

#[inline(always)]
pub fn parse_user_defined_type(
    mut buf: ParseBuffer,
    kind: u16,
) -> Result<(UserDefinedTypeSymbol, usize), Refusal>
    ensures { decoded_as SymbolData.UserDefinedType result ≡ user_defined_type kind buf.entry.bytes.now buf.entry.pos }
{
    let user_defined_type = UserDefinedTypeSymbol {
        type_index: buf.parse()?,
        name: parse_symbol_name(&mut buf, kind)?,
    };
    Ok((user_defined_type, buf.pos))
}
