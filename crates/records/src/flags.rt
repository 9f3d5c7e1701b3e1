// The flags of a record: a type for each record that has some, with its masks and how it is read from its bits (pdb's
// src/symbol/mod.rs). Each has fields of its own names, as in pdb.
ghost use Rattle.std.specs.Prelude.{◌≡◌};
ghost use Rattle.records.specs.Flags.{procedure_flags, public_flags, export_flags, local_flags, separated_flags, compile_flags};

/// The flags of a `PublicSymbol`: what it is (CV_PUBSYMFLAGS).
#[derive(Clone, Copy, Debug, PartialEq, Eq)]
pub struct PublicFlags {
    /// It is code.
    pub code: bool,
    /// It is a function.
    pub function: bool,
    /// It is managed code, native or IL.
    pub managed: bool,
    /// It is managed IL code.
    pub msil: bool,
}

impl PublicFlags {
    pub const CODE: u32 = 0x1;

    pub const FUNCTION: u32 = 0x2;

    pub const MANAGED: u32 = 0x4;

    pub const MSIL: u32 = 0x8;
}

impl From<u32> for PublicFlags {
    ghost from_gives = { λ x flags. flags ≡ public_flags x };

    #[inline(always)]
    fn from(x: u32) -> Self {
        Self {
            code: x & Self::CODE != 0,
            function: x & Self::FUNCTION != 0,
            managed: x & Self::MANAGED != 0,
            msil: x & Self::MSIL != 0,
        }
    }
}

/// The flags of a `ProcedureSymbol` or a `LabelSymbol`: how it returns and was compiled (CV_PROCFLAGS).
#[derive(Clone, Copy, Debug, PartialEq, Eq)]
pub struct ProcedureFlags {
    /// It has a frame pointer: none was omitted.
    pub nofpo: bool,
    /// It returns from an interrupt.
    pub int: bool,
    /// It returns far.
    pub far: bool,
    /// It does not return.
    pub never: bool,
    /// It is never called.
    pub notreached: bool,
    /// It has a calling convention of its own.
    pub cust_call: bool,
    /// It is marked `noinline`.
    pub noinline: bool,
    /// There is debug information for its optimized code.
    pub optdbginfo: bool,
}

impl ProcedureFlags {
    pub const NOFPO: u8 = 0x01;

    pub const INT: u8 = 0x02;

    pub const FAR: u8 = 0x04;

    pub const NEVER: u8 = 0x08;

    pub const NOTREACHED: u8 = 0x10;

    pub const CUST_CALL: u8 = 0x20;

    pub const NOINLINE: u8 = 0x40;

    pub const OPTDBGINFO: u8 = 0x80;
}

impl From<u8> for ProcedureFlags {
    ghost from_gives = { λ x flags. flags ≡ procedure_flags x };

    #[inline(always)]
    fn from(x: u8) -> Self {
        Self {
            nofpo: x & Self::NOFPO != 0,
            int: x & Self::INT != 0,
            far: x & Self::FAR != 0,
            never: x & Self::NEVER != 0,
            notreached: x & Self::NOTREACHED != 0,
            cust_call: x & Self::CUST_CALL != 0,
            noinline: x & Self::NOINLINE != 0,
            optdbginfo: x & Self::OPTDBGINFO != 0,
        }
    }
}

/// The flags of a `LocalSymbol`: what the variable is (CV_LVARFLAGS).
#[derive(Clone, Copy, Debug, PartialEq, Eq)]
pub struct LocalVariableFlags {
    /// It is a parameter.
    pub isparam: bool,
    /// Its address is taken.
    pub addrtaken: bool,
    /// The compiler made it.
    pub compgenx: bool,
    /// It is split into parts that the compiler treats as variables of their own.
    pub isaggregate: bool,
    /// It has several lifetimes at the same time.
    pub isaliased: bool,
    /// It is one of several lifetimes of a variable.
    pub isalias: bool,
    /// It is what the function returns.
    pub isretvalue: bool,
    /// It has no lifetime: it was optimized out.
    pub isoptimizedout: bool,
    /// It is a global variable in a register.
    pub isenreg_glob: bool,
    /// It is a static variable in a register.
    pub isenreg_stat: bool,
}

impl LocalVariableFlags {
    pub const ISPARAM: u16 = 0x01;

    pub const ADDRTAKEN: u16 = 0x02;

    pub const COMPGENX: u16 = 0x04;

    pub const ISAGGREGATE: u16 = 0x08;

    pub const ISALIASED: u16 = 0x10;

    pub const ISALIAS: u16 = 0x20;

    pub const ISRETVALUE: u16 = 0x40;

    pub const ISOPTIMIZEDOUT: u16 = 0x80;

    pub const ISENREG_GLOB: u16 = 0x100;

    pub const ISENREG_STAT: u16 = 0x200;
}

impl From<u16> for LocalVariableFlags {
    ghost from_gives = { λ x flags. flags ≡ local_flags x };

    #[inline(always)]
    fn from(x: u16) -> Self {
        Self {
            isparam: x & Self::ISPARAM != 0,
            addrtaken: x & Self::ADDRTAKEN != 0,
            compgenx: x & Self::COMPGENX != 0,
            isaggregate: x & Self::ISAGGREGATE != 0,
            isaliased: x & Self::ISALIASED != 0,
            isalias: x & Self::ISALIAS != 0,
            isretvalue: x & Self::ISRETVALUE != 0,
            isoptimizedout: x & Self::ISOPTIMIZEDOUT != 0,
            isenreg_glob: x & Self::ISENREG_GLOB != 0,
            isenreg_stat: x & Self::ISENREG_STAT != 0,
        }
    }
}

/// The flags of an `ExportSymbol`: what is exported, and how.
#[derive(Clone, Copy, Debug, PartialEq, Eq)]
pub struct ExportSymbolFlags {
    /// It is a constant.
    pub constant: bool,
    /// It is data, such as a static variable.
    pub data: bool,
    /// It is private.
    pub private: bool,
    /// It has no name.
    pub no_name: bool,
    /// Its ordinal was given explicitly.
    pub ordinal: bool,
    /// It is a forwarder, to a symbol of another library.
    pub forwarder: bool,
}

impl ExportSymbolFlags {
    pub const CONSTANT: u16 = 0x01;

    pub const DATA: u16 = 0x02;

    pub const PRIVATE: u16 = 0x04;

    pub const NO_NAME: u16 = 0x08;

    pub const ORDINAL: u16 = 0x10;

    pub const FORWARDER: u16 = 0x20;
}

impl From<u16> for ExportSymbolFlags {
    ghost from_gives = { λ x flags. flags ≡ export_flags x };

    #[inline(always)]
    fn from(x: u16) -> Self {
        Self {
            constant: x & Self::CONSTANT != 0,
            data: x & Self::DATA != 0,
            private: x & Self::PRIVATE != 0,
            no_name: x & Self::NO_NAME != 0,
            ordinal: x & Self::ORDINAL != 0,
            forwarder: x & Self::FORWARDER != 0,
        }
    }
}

/// The flags of a `SeparatedCodeSymbol`: what the code is (CV_SEPCODEFLAGS).
#[derive(Clone, Copy, Debug, PartialEq, Eq)]
pub struct SeparatedCodeFlags {
    /// It is a lexical scope too.
    pub islexicalscope: bool,
    /// It returns to the code of its parent.
    pub returnstoparent: bool,
}

impl SeparatedCodeFlags {
    pub const IS_LEXICAL_SCOPE: u32 = 0x1;

    pub const RETURNS_TO_PARENT: u32 = 0x2;
}

impl From<u32> for SeparatedCodeFlags {
    ghost from_gives = { λ x flags. flags ≡ separated_flags x };

    #[inline(always)]
    fn from(x: u32) -> Self {
        Self {
            islexicalscope: x & Self::IS_LEXICAL_SCOPE != 0,
            returnstoparent: x & Self::RETURNS_TO_PARENT != 0,
        }
    }
}

/// The flags of a `CompileFlagsSymbol`: what the module was compiled with.
#[derive(Clone, Copy, Debug, PartialEq, Eq)]
pub struct CompileFlags {
    /// For edit and continue.
    pub edit_and_continue: bool,
    /// Without debug information.
    pub no_debug_info: bool,
    /// With code generation at link time, /LTCG.
    pub link_time_codegen: bool,
    /// With /bzalign: data is not aligned.
    pub no_data_align: bool,
    /// It has managed code or data.
    pub managed: bool,
    /// With security checks, /GS.
    pub security_checks: bool,
    /// For patches of running code, /hotpatch.
    pub hot_patch: bool,
    /// By CvtCIL.
    pub cvtcil: bool,
    /// It is a .NET module of MSIL.
    pub msil_module: bool,
    /// With /sdl. S_COMPILE3 alone has this flag and the next two.
    pub sdl: bool,
    /// Guided by a profile, /ltcg:pgo.
    pub pgo: bool,
    /// It is a .exp module.
    pub exp_module: bool,
}

impl CompileFlags {
    pub const EDIT_AND_CONTINUE: u16 = 0x001;

    pub const NO_DEBUG_INFO: u16 = 0x002;

    pub const LINK_TIME_CODEGEN: u16 = 0x004;

    pub const NO_DATA_ALIGN: u16 = 0x008;

    pub const MANAGED: u16 = 0x010;

    pub const SECURITY_CHECKS: u16 = 0x020;

    pub const HOT_PATCH: u16 = 0x040;

    pub const CVTCIL: u16 = 0x080;

    pub const MSIL_MODULE: u16 = 0x100;

    pub const SDL: u16 = 0x200;

    pub const PGO: u16 = 0x400;

    pub const EXP_MODULE: u16 = 0x800;

    /// The last three are flags of S_COMPILE3 alone. (The kind decides beside the bits, so that this is no `From`.)
    #[inline(always)]
    pub fn from_bits(x: u16, compile3: bool) -> Self
        ensures { result ≡ compile_flags x compile3 }
    {
        Self {
            edit_and_continue: x & Self::EDIT_AND_CONTINUE != 0,
            no_debug_info: x & Self::NO_DEBUG_INFO != 0,
            link_time_codegen: x & Self::LINK_TIME_CODEGEN != 0,
            no_data_align: x & Self::NO_DATA_ALIGN != 0,
            managed: x & Self::MANAGED != 0,
            security_checks: x & Self::SECURITY_CHECKS != 0,
            hot_patch: x & Self::HOT_PATCH != 0,
            cvtcil: x & Self::CVTCIL != 0,
            msil_module: x & Self::MSIL_MODULE != 0,
            sdl: (x & Self::SDL != 0) & compile3,
            pgo: (x & Self::PGO != 0) & compile3,
            exp_module: (x & Self::EXP_MODULE != 0) & compile3,
        }
    }
}
