// What is known of a record by its kind alone (pdb's src/symbol/constants.rs): its class, the record that it is decoded as, and its role,
// its part in a scope.
#![tactic(auto)]

pub mod compiler;
pub mod kind;
mod table;

ghost use Rattle.std.specs.Prelude.{◌≡◌};
ghost use Rattle.constants.specs.Kind.{class_of, role_of, nesting_role, is_filler, class_number};

// The kinds by which records of one class, or of none, are told apart, as cvinfo.h names them. (Numbers, as in pdb: a file may have others.)

/// Alignment to a page.
pub const S_ALIGN: u16 = 0x0402;

/// Reserved space.
pub const S_SKIP: u16 = 0x0007;

/// A variable that spans registers, which a count of two bytes tells.
pub const S_MANYREG2: u16 = 0x1117;

/// The same, with names that begin with their length.
pub const S_MANYREG2_ST: u16 = 0x1014;

/// Data that the whole program sees.
pub const S_GDATA32: u16 = 0x110d;

/// The same, with a name that begins with its length.
pub const S_GDATA32_ST: u16 = 0x1008;

/// Managed data of one module.
pub const S_LMANDATA: u16 = 0x111c;

/// The same, with a name that begins with its length.
pub const S_LMANDATA_ST: u16 = 0x1020;

/// Managed data that the whole program sees.
pub const S_GMANDATA: u16 = 0x111d;

/// The same, with a name that begins with its length.
pub const S_GMANDATA_ST: u16 = 0x1021;

/// A procedure that the whole program sees.
pub const S_GPROC32: u16 = 0x1110;

/// The same, with a name that begins with its length.
pub const S_GPROC32_ST: u16 = 0x100b;

/// The same, with an item in place of its type.
pub const S_GPROC32_ID: u16 = 0x1147;

/// A procedure of one module, with an item in place of its type.
pub const S_LPROC32_ID: u16 = 0x1146;

/// A procedure of one module, called later (DPC).
pub const S_LPROC32_DPC: u16 = 0x1155;

/// The same, with an item in place of its type.
pub const S_LPROC32_DPC_ID: u16 = 0x1156;

/// Thread storage that the whole program sees.
pub const S_GTHREAD32: u16 = 0x1113;

/// The same, with a name that begins with its length.
pub const S_GTHREAD32_ST: u16 = 0x100f;

/// How a module was compiled, with versions of four numbers.
pub const S_COMPILE3: u16 = 0x113c;

/// A reference to a procedure that the whole program sees.
pub const S_PROCREF: u16 = 0x1125;

/// The same, with a name that begins with its length.
pub const S_PROCREF_ST: u16 = 0x0400;

/// A managed constant.
pub const S_MANCONSTANT: u16 = 0x112d;

/// The call site of an inlined function, with the number of its invocations.
pub const S_INLINESITE2: u16 = 0x115d;

/// What a record is decoded as, in the order of pdb's `SymbolData`.
#[derive(Clone, Copy, Debug, PartialEq, Eq)]
pub enum Class {
    /// A kind that is not read.
    Unknown,
    /// The end of a scope, such as a block or a procedure.
    ScopeEnd,
    /// The name of the module's object file.
    ObjName,
    /// A variable in a register.
    RegisterVariable,
    /// A constant and its value.
    Constant,
    /// A name for a user-defined type.
    UserDefinedType,
    /// A variable that spans registers.
    MultiRegisterVariable,
    /// Static data, as a global variable.
    Data,
    /// A public symbol with a mangled name.
    Public,
    /// A procedure, as a function or a method.
    Procedure,
    /// A thread-local variable.
    ThreadStorage,
    /// How a module was compiled.
    CompileFlags,
    /// A using-namespace directive.
    UsingNamespace,
    /// A reference to a procedure in a module.
    ProcedureReference,
    /// A reference to data in a module.
    DataReference,
    /// A reference to an annotation.
    AnnotationReference,
    /// A trampoline: a jump that the linker made.
    Trampoline,
    /// An exported symbol.
    Export,
    /// A local variable in optimized code.
    Local,
    /// A reference to build information.
    BuildInfo,
    /// The call site of an inlined function.
    InlineSite,
    /// The end of an inline site.
    InlineSiteEnd,
    /// The end of a procedure.
    ProcedureEnd,
    /// A label in code.
    Label,
    /// A block of a procedure.
    Block,
    /// A variable at an offset from a register.
    RegisterRelative,
    /// A thunk: code that adjusts a call and hands it on.
    Thunk,
    /// Code of a procedure that lies apart from it.
    SeparatedCode,
}

/// Whether a record opens a scope or closes one.
#[derive(Clone, Copy, Debug, PartialEq, Eq)]
pub enum Role {
    /// It does neither.
    Neither,
    /// It opens one.
    Opens,
    /// It closes one.
    Closes,
}

/// What records of this kind are decoded as.
pub fn class_of(kind: u16) -> Class
    ensures { result ≡ class_of kind }
{
    table::entry(kind).0
}

/// The number of the class of this kind, in the order of pdb's `SymbolData`.
pub fn class_number(kind: u16) -> u8
    ensures { result ≡ class_number (class_of kind) }
{
    class_of(kind) as u8
}

/// Whether records of this kind open or close a scope, to pdb.
pub fn role_of(kind: u16) -> Role
    ensures { result ≡ role_of kind }
{
    table::entry(kind).1
}

/// What the nesting check and the finders take records of this kind for. S_LPROC32_ID is an opener to them, as in LLVM, but not in pdb.
#[tactic(auto, unfolding(crate::specs::Kind::nesting_role))]
pub fn nesting_role(kind: u16) -> Role
    ensures { result ≡ nesting_role kind }
{
    match kind {
        S_LPROC32_ID => Role::Opens,
        _ => role_of(kind),
    }
}

/// Whether a step passes over records of this kind.
pub fn is_filler(kind: u16) -> bool
    ensures { result ≡ is_filler kind }
{
    matches!(kind, S_ALIGN | S_SKIP)
}
