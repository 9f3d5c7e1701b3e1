// The typed records (pdb's src/symbol/mod.rs): what a record decodes to.
//
// Indexes, types and ids are u32, registers and sections u16; names and annotations are parts of the record.
#![tactic(auto)]

pub mod field;
pub mod flags;

ghost use Rattle.std.specs.Prelude.{◌≡◌, None, Some};
ghost use Rattle.records.specs.Field.{trampoline_of};
ghost use Rattle.records.specs.Name.{name_in};

use common::Refusal;
use flags::{
    CompileFlags, ExportSymbolFlags, LocalVariableFlags, ProcedureFlags, PublicFlags,
    SeparatedCodeFlags,
};
use names::Part;
use variant::Variant;

/// A place in the program: an offset within a section.
#[derive(Clone, Copy, Debug, PartialEq, Eq)]
pub struct SectionOffset {
    /// The offset from the start of the section.
    pub offset: u32,
    /// The number of the section.
    pub section: u16,
}

/// The object file that a module was made from. S_OBJNAME, S_OBJNAME_ST.
#[derive(Clone, Copy, Debug, PartialEq, Eq)]
pub struct ObjNameSymbol {
    /// The signature of the object file.
    pub signature: u32,
    /// The path of the object file.
    pub name: Part,
}

/// A variable that is kept in a register. S_REGISTER, S_REGISTER_ST.
#[derive(Clone, Copy, Debug, PartialEq, Eq)]
pub struct RegisterVariableSymbol {
    /// The type of the variable.
    pub type_index: u32,
    /// The register that holds it.
    pub register: u16,
    /// The name of the variable.
    pub name: Part,
}

/// A constant. S_CONSTANT, S_CONSTANT_ST, S_MANCONSTANT.
#[derive(Clone, Copy, Debug, PartialEq, Eq)]
pub struct ConstantSymbol {
    /// Whether the type is a metadata token: S_MANCONSTANT.
    pub managed: bool,
    /// The type of the constant, or its metadata token.
    pub type_index: u32,
    /// The value of the constant.
    pub value: Variant,
    /// The name of the constant.
    pub name: Part,
}

/// A type that has a name. S_UDT, S_UDT_ST, S_COBOLUDT, S_COBOLUDT_ST.
#[derive(Clone, Copy, Debug, PartialEq, Eq)]
pub struct UserDefinedTypeSymbol {
    /// The type that is named.
    pub type_index: u32,
    /// The name of the type.
    pub name: Part,
}

/// A variable that spans several registers. S_MANYREG, S_MANYREG_ST, S_MANYREG2, S_MANYREG2_ST.
///
/// Its entries stand one after another from `first` on, the most significant register first; each is a register and a name. (No Vec of them:
/// there is no heap, and C is told where they stand.)
#[derive(Clone, Copy, Debug, PartialEq, Eq)]
pub struct MultiRegisterVariableSymbol {
    /// The type of the variable.
    pub type_index: u32,
    /// The number of entries.
    pub count: u16,
    /// Where the first entry stands in the record.
    pub first: usize,
}

/// Data at a fixed place, such as a global variable. S_LDATA32, S_GDATA32, S_LMANDATA, S_GMANDATA, and their _ST.
#[derive(Clone, Copy, Debug, PartialEq, Eq)]
pub struct DataSymbol {
    /// Whether it is global: S_GDATA32, S_GMANDATA, and their _ST.
    pub global: bool,
    /// Whether it is managed: S_LMANDATA, S_GMANDATA, and their _ST.
    pub managed: bool,
    /// The type of the data.
    pub type_index: u32,
    /// Where the data begins.
    pub offset: SectionOffset,
    /// The name of the variable.
    pub name: Part,
}

/// A public symbol, by its mangled name. S_PUB32, S_PUB32_ST.
#[derive(Clone, Copy, Debug, PartialEq, Eq)]
pub struct PublicSymbol {
    /// What the symbol is.
    pub flags: PublicFlags,
    /// Where the symbol begins.
    pub offset: SectionOffset,
    /// The mangled name.
    pub name: Part,
}

/// A procedure, such as a function or a method; it opens a scope (S_LPROC32_ID to the check and the finders alone). S_LPROC32,
/// S_LPROC32_ST, S_GPROC32, S_GPROC32_ST, S_LPROC32_DPC; S_LPROC32_ID, S_GPROC32_ID, S_LPROC32_DPC_ID, whose type is an id.
#[derive(Clone, Copy, Debug, PartialEq, Eq)]
pub struct ProcedureSymbol {
    /// Whether it is global: S_GPROC32, S_GPROC32_ST, S_GPROC32_ID.
    pub global: bool,
    /// Whether it is a deferred procedure call: S_LPROC32_DPC, S_LPROC32_DPC_ID.
    pub dpc: bool,
    /// The index of the scope that encloses it.
    pub parent: Option<u32>,
    /// The index of the record that closes its scope.
    pub end: u32,
    /// The index of the next procedure.
    pub next: Option<u32>,
    /// The length of its code in bytes.
    pub len: u32,
    /// Where its body begins, behind the prologue, from its start.
    pub dbg_start_offset: u32,
    /// Where its body ends, before the epilogue, from its start.
    pub dbg_end_offset: u32,
    /// The type of the procedure: its parameters and what it returns.
    pub type_index: u32,
    /// Where its code begins.
    pub offset: SectionOffset,
    /// How it returns and was compiled.
    pub flags: ProcedureFlags,
    /// The name, not mangled.
    pub name: Part,
}

/// A variable of which each thread has its own. S_LTHREAD32, S_LTHREAD32_ST, S_GTHREAD32, S_GTHREAD32_ST.
#[derive(Clone, Copy, Debug, PartialEq, Eq)]
pub struct ThreadStorageSymbol {
    /// Whether it is global: S_GTHREAD32, S_GTHREAD32_ST.
    pub global: bool,
    /// The type of the variable.
    pub type_index: u32,
    /// Where the variable begins.
    pub offset: SectionOffset,
    /// The name of the variable.
    pub name: Part,
}

/// A version of the front end or the back end, in a `CompileFlagsSymbol`.
#[derive(Clone, Copy, Debug, PartialEq, Eq)]
pub struct CompilerVersion {
    /// The major number.
    pub major: u16,
    /// The minor number.
    pub minor: u16,
    /// The build, or patch, number.
    pub build: u16,
    /// The number of the quick fix: S_COMPILE3 alone has one.
    pub qfe: Option<u16>,
}

/// How a module was compiled. S_COMPILE2, S_COMPILE2_ST, S_COMPILE3.
#[derive(Clone, Copy, Debug, PartialEq, Eq)]
pub struct CompileFlagsSymbol {
    /// The source language, as `source_language` of crate constants reads it: a number, as C is told it.
    pub language: u8,
    /// The options of the compiler.
    pub flags: CompileFlags,
    /// The processor that it was compiled for, as `cpu_type` of crate constants reads it: a number as well.
    pub cpu_type: u16,
    /// The version of the front end.
    pub frontend_version: CompilerVersion,
    /// The version of the back end.
    pub backend_version: CompilerVersion,
    /// The name of the compiler, for display.
    pub version_string: Part,
}

/// A `using namespace` directive. S_UNAMESPACE, S_UNAMESPACE_ST.
#[derive(Clone, Copy, Debug, PartialEq, Eq)]
pub struct UsingNamespaceSymbol {
    /// The namespace that is used.
    pub name: Part,
}

/// A reference to a procedure, which may stand in another module. S_PROCREF, S_PROCREF_ST, S_LPROCREF, S_LPROCREF_ST.
#[derive(Clone, Copy, Debug, PartialEq, Eq)]
pub struct ProcedureReferenceSymbol {
    /// Whether the procedure is global: S_PROCREF, S_PROCREF_ST.
    pub global: bool,
    /// A checksum of the name.
    pub sum_name: u32,
    /// The index of the procedure in the stream of its module.
    pub symbol_index: u32,
    /// The module that has it, counted from 0.
    pub module: Option<u16>,
    /// The name of the procedure; none in S_PROCREF_ST and S_LPROCREF_ST.
    pub name: Option<Part>,
}

/// A reference to data, which may stand in another module. S_DATAREF, S_DATAREF_ST.
#[derive(Clone, Copy, Debug, PartialEq, Eq)]
pub struct DataReferenceSymbol {
    /// A checksum of the name.
    pub sum_name: u32,
    /// The index of the data in the stream of its module.
    pub symbol_index: u32,
    /// The module that has it, counted from 0.
    pub module: Option<u16>,
    /// The name of the data; none in S_DATAREF_ST.
    pub name: Option<Part>,
}

/// A reference to an annotation, which may stand in another module. S_ANNOTATIONREF.
#[derive(Clone, Copy, Debug, PartialEq, Eq)]
pub struct AnnotationReferenceSymbol {
    /// A checksum of the name.
    pub sum_name: u32,
    /// The index of the annotation in the stream of its module.
    pub symbol_index: u32,
    /// The module that has it, counted from 0.
    pub module: Option<u16>,
    /// The name of the annotation.
    pub name: Part,
}

/// What a `TrampolineSymbol` is for.
#[derive(Clone, Copy, Debug, PartialEq, Eq)]
pub enum TrampolineType {
    // Incremental linking: 0.
    Incremental,
    // A branch that reaches further, a branch island: 1.
    BranchIsland,
    // Any other number.
    Unknown,
}

impl From<u16> for TrampolineType {
    ghost from_gives = { λ x kind. kind ≡ trampoline_of x };

    fn from(x: u16) -> Self {
        match x {
            0 => TrampolineType::Incremental,
            1 => TrampolineType::BranchIsland,
            _ => TrampolineType::Unknown,
        }
    }
}

/// A piece of code that jumps on to another. S_TRAMPOLINE.
#[derive(Clone, Copy, Debug, PartialEq, Eq)]
pub struct TrampolineSymbol {
    /// What it is for.
    pub tramp_type: TrampolineType,
    /// The length of its code in bytes.
    pub size: u16,
    /// Where its code begins.
    pub thunk: SectionOffset,
    /// Where it jumps to.
    pub target: SectionOffset,
}

/// A symbol that the program exports. S_EXPORT.
#[derive(Clone, Copy, Debug, PartialEq, Eq)]
pub struct ExportSymbol {
    /// The ordinal that it is exported by.
    pub ordinal: u16,
    /// What is exported, and how.
    pub flags: ExportSymbolFlags,
    /// The name that it is exported by.
    pub name: Part,
}

/// A local variable in optimized code. S_LOCAL.
#[derive(Clone, Copy, Debug, PartialEq, Eq)]
pub struct LocalSymbol {
    /// The type of the variable.
    pub type_index: u32,
    /// What the variable is.
    pub flags: LocalVariableFlags,
    /// The name of the variable.
    pub name: Part,
}

/// The build information of a module. S_BUILDINFO.
#[derive(Clone, Copy, Debug, PartialEq, Eq)]
pub struct BuildInfoSymbol {
    /// The id of the record that has it.
    pub id: u32,
}

/// A call that was replaced by the body of the function called; it opens a scope. S_INLINESITE, S_INLINESITE2.
#[derive(Clone, Copy, Debug, PartialEq, Eq)]
pub struct InlineSiteSymbol {
    /// The index of the procedure or inline site that encloses it.
    pub parent: Option<u32>,
    /// The index of the record that closes its scope.
    pub end: u32,
    /// The id of the function called.
    pub inlinee: u32,
    /// How often the function is called: S_INLINESITE2 alone says so.
    pub invocations: Option<u32>,
    /// The binary annotations, which tell its lines; they are not decoded.
    pub annotations: Part,
}

/// A label in code. S_LABEL32, S_LABEL32_ST.
#[derive(Clone, Copy, Debug, PartialEq, Eq)]
pub struct LabelSymbol {
    /// Where the label stands.
    pub offset: SectionOffset,
    /// The flags of a procedure, here of the label.
    pub flags: ProcedureFlags,
    /// The name of the label.
    pub name: Part,
}

/// A block of code; it opens a scope. S_BLOCK32, S_BLOCK32_ST.
#[derive(Clone, Copy, Debug, PartialEq, Eq)]
pub struct BlockSymbol {
    /// The index of the scope that encloses it, 0 if there is none.
    pub parent: u32,
    /// The index of the record that closes its scope.
    pub end: u32,
    /// The length of its code in bytes.
    pub len: u32,
    /// Where its code begins.
    pub offset: SectionOffset,
    /// The name of the block.
    pub name: Part,
}

/// A variable at an offset from the address in a register, such as %EBP + 8. S_REGREL32.
#[derive(Clone, Copy, Debug, PartialEq, Eq)]
pub struct RegisterRelativeSymbol {
    /// The offset.
    pub offset: i32,
    /// The type of the variable.
    pub type_index: u32,
    /// The register.
    pub register: u16,
    /// The name of the variable.
    pub name: Part,
}

/// What an adjustor thunk does before it jumps.
#[derive(Clone, Copy, Debug, PartialEq, Eq)]
pub struct ThunkAdjustor {
    /// What is added to `this`.
    pub delta: u16,
    /// The name of the function that it goes on to.
    pub target: Part,
}

/// The six variants of a `ThunkSymbol`.
#[derive(Clone, Copy, Debug, PartialEq, Eq)]
pub enum ThunkKind {
    // A plain thunk: 0.
    NoType,
    // It adjusts `this`: 1.
    Adjustor(ThunkAdjustor),
    // It calls through the virtual table, by this entry: 2.
    VCall(u16),
    // It calls p-code: 3.
    PCode,
    // It loads the address that it jumps to: 4.
    Load,
    // Any other code, kept as it is.
    Unknown(u8),
}

/// A thunk, a small procedure that goes on to another; it opens a scope. S_THUNK32, S_THUNK32_ST.
#[derive(Clone, Copy, Debug, PartialEq, Eq)]
pub struct ThunkSymbol {
    /// The index of the scope that encloses it.
    pub parent: Option<u32>,
    /// The index of the record that closes its scope.
    pub end: u32,
    /// The index of the next procedure.
    pub next: Option<u32>,
    /// Where its code begins.
    pub offset: SectionOffset,
    /// The length of its code in bytes.
    pub len: u16,
    /// Which of the variants it is.
    pub kind: ThunkKind,
    /// The name of the thunk.
    pub name: Part,
}

/// Code of a procedure that is placed apart from it; it opens a scope. S_SEPCODE.
#[derive(Clone, Copy, Debug, PartialEq, Eq)]
pub struct SeparatedCodeSymbol {
    /// The index of the scope that encloses it, 0 if there is none.
    pub parent: u32,
    /// The index of the record that closes its scope.
    pub end: u32,
    /// The length of the code in bytes.
    pub len: u32,
    /// What the code is.
    pub flags: SeparatedCodeFlags,
    /// Where the code begins.
    pub offset: SectionOffset,
    /// Where the code of the scope that encloses it begins.
    pub parent_offset: SectionOffset,
}

/// A typed record: one case for each class of records, in the order of pdb.
#[derive(Clone, Copy, Debug, PartialEq, Eq)]
pub enum SymbolData {
    // The end of a scope, such as a procedure or a block. S_END.
    ScopeEnd,
    // The object file that the module was made from.
    ObjName(ObjNameSymbol),
    // A variable in a register.
    RegisterVariable(RegisterVariableSymbol),
    // A constant.
    Constant(ConstantSymbol),
    // A type that has a name.
    UserDefinedType(UserDefinedTypeSymbol),
    // A variable that spans several registers.
    MultiRegisterVariable(MultiRegisterVariableSymbol),
    // Data at a fixed place.
    Data(DataSymbol),
    // A public symbol.
    Public(PublicSymbol),
    // A procedure.
    Procedure(ProcedureSymbol),
    // A variable of which each thread has its own.
    ThreadStorage(ThreadStorageSymbol),
    // How the module was compiled.
    CompileFlags(CompileFlagsSymbol),
    // A `using namespace` directive.
    UsingNamespace(UsingNamespaceSymbol),
    // A reference to a procedure.
    ProcedureReference(ProcedureReferenceSymbol),
    // A reference to data.
    DataReference(DataReferenceSymbol),
    // A reference to an annotation.
    AnnotationReference(AnnotationReferenceSymbol),
    // A piece of code that jumps on to another.
    Trampoline(TrampolineSymbol),
    // An exported symbol.
    Export(ExportSymbol),
    // A local variable in optimized code.
    Local(LocalSymbol),
    // The build information of the module.
    BuildInfo(BuildInfoSymbol),
    // A call that was replaced by the body of the function called.
    InlineSite(InlineSiteSymbol),
    // The end of an inline site. S_INLINESITE_END.
    InlineSiteEnd,
    // The end of a procedure. S_PROC_ID_END.
    ProcedureEnd,
    // A label in code.
    Label(LabelSymbol),
    // A block of code.
    Block(BlockSymbol),
    // A variable at an offset from the address in a register.
    RegisterRelative(RegisterRelativeSymbol),
    // A thunk.
    Thunk(ThunkSymbol),
    // Code that is placed apart from its procedure.
    SeparatedCode(SeparatedCodeSymbol),
}

impl SymbolData {
    /// The name of the record; none for registers, register lists and compile flags, whatever name they hold.
    #[inline(always)]
    pub fn name(&self) -> Option<Part>
        ensures { result ≡ name_in self.now }
    {
        match self {
            SymbolData::ObjName(data) => Some(data.name),
            SymbolData::Constant(data) => Some(data.name),
            SymbolData::UserDefinedType(data) => Some(data.name),
            SymbolData::Data(data) => Some(data.name),
            SymbolData::Public(data) => Some(data.name),
            SymbolData::Procedure(data) => Some(data.name),
            SymbolData::ThreadStorage(data) => Some(data.name),
            SymbolData::UsingNamespace(data) => Some(data.name),
            SymbolData::ProcedureReference(data) => data.name,
            SymbolData::DataReference(data) => data.name,
            SymbolData::AnnotationReference(data) => Some(data.name),
            SymbolData::Export(data) => Some(data.name),
            SymbolData::Local(data) => Some(data.name),
            SymbolData::Label(data) => Some(data.name),
            SymbolData::Block(data) => Some(data.name),
            SymbolData::RegisterRelative(data) => Some(data.name),
            SymbolData::Thunk(data) => Some(data.name),
            _ => None,
        }
    }
}

/// A typed record and the position behind it, or why there is none.
pub type Decoded = Result<(SymbolData, usize), Refusal>;
