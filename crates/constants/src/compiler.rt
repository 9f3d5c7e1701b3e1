// Processors and source languages by the codes that compilers give them (pdb's src/symbol/constants.rs). (Numbers, where pdb has enums: so
// document 01 says, and C is told them.)
ghost use Rattle.std.specs.Prelude.{◌≡◌};
ghost use Rattle.constants.specs.Processor.{cpu_type_of};
ghost use Rattle.constants.specs.Language.{source_language};

/// What an unknown processor reads as.
const INTEL8080: u16 = 0;

/// What an unknown language reads as.
const MASM: u8 = 3;

/// A known processor's code, and that of Intel8080 for another.
#[tactic(auto, using(crate::proofs::Entries::unknown_processor, crate::proofs::Entries::known_processor), unfolding(crate::specs::Processor::processors))]
pub fn cpu_type(code: u16) -> u16
    ensures { result ≡ cpu_type_of code }
{
    match code {
        0x00..=0x07 // Intel8080 to Pentium3
        | 0x10..=0x18 // MIPS to MIPSV
        | 0x20..=0x24 // M68000 to M68040
        | 0x30..=0x34 // Alpha to Alpha21364
        | 0x40..=0x45 // PPC601 to PPCBE
        | 0x50..=0x54 // SH3 to SHMedia
        | 0x60..=0x69 // ARM3 to ARM64
        | 0x70 // Omni
        | 0x80..=0x81 // Ia64, Ia64_2
        | 0x90 // CEE
        | 0xa0 // AM33
        | 0xb0 // M32R
        | 0xc0 // TriCore
        | 0xd0 // X64
        | 0xe0 // EBC
        | 0xf0 // Thumb
        | 0xf4 // ARMNT
        | 0x100 // D3D11_Shader
        => code,
        _ => INTEL8080,
    }
}

/// A known language's code, and that of Masm for another.
pub fn source_language(code: u8) -> u8
    ensures { result ≡ source_language code }
{
    match code {
        0..=0x10 | 0x44 => code,
        _ => MASM,
    }
}
