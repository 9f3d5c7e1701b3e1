// The records that say how the module was compiled: the flags, and the versions of the compiler.
ghost use Rattle.std.specs.Prelude.{◌≡◌, OnErr};
ghost use Rattle.records.specs.Decoded.{decoded_as};
ghost use Rattle.records.specs.declared.SymbolData.TheVariants as SymbolData;
ghost use Rattle.common.specs.Buffer.{Reads};
ghost use Rattle.compiland.specs.Compile.{version, compile};

use common::Refusal;
use common::buffer::ParseBuffer;
use constants::S_COMPILE3;
use constants::compiler::{cpu_type, source_language};
use names::parse_symbol_name;
use records::flags::CompileFlags;
use records::{CompileFlagsSymbol, CompilerVersion};

/// Reads a version, or moves nothing: S_COMPILE3 alone has the fourth number.
fn parse_version(buf: &mut ParseBuffer, compile3: bool) -> Result<CompilerVersion, Refusal>
    ensures reads { Reads (version compile3) buf.old result buf.new }
    ensures stays { OnErr result (buf.new.pos ≡ buf.old.pos) }
{
    let mut ahead = *buf;
    let version = CompilerVersion {
        major: ahead.parse()?,
        minor: ahead.parse()?,
        build: ahead.parse()?,
        qfe: if compile3 { Some(ahead.parse()?) } else { None },
    };
    *buf = ahead;
    Ok(version)
}

#[inline(always)]
pub fn parse_compile_flags(
    mut buf: ParseBuffer,
    kind: u16,
) -> Result<(CompileFlagsSymbol, usize), Refusal>
    ensures { decoded_as SymbolData.CompileFlags result ≡ compile kind buf.entry.bytes.now buf.entry.pos }
{
    let compile3 = kind == S_COMPILE3;
    let language = source_language(buf.parse()?);
    let flags = CompileFlags::from_bits(buf.parse()?, compile3);
    let _ignored: u8 = buf.parse()?;
    let compile_flags = CompileFlagsSymbol {
        language,
        flags,
        cpu_type: cpu_type(buf.parse()?),
        frontend_version: parse_version(&mut buf, compile3)?,
        backend_version: parse_version(&mut buf, compile3)?,
        version_string: parse_symbol_name(&mut buf, kind)?,
    };
    Ok((compile_flags, buf.pos))
}
