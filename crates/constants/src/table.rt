// The table of kinds, as cvinfo.h numbers them: the class and the role of each.
#![tactic(auto, using(crate::proofs::Entries::unlisted, crate::proofs::Entries::in_kinds), unfolding(crate::specs::Kind::class_of, crate::specs::Kind::role_of, crate::specs::Kind::entry_of, crate::specs::Kind::kinds))]

ghost use Rattle.std.specs.Prelude.{◌≡◌, ◌<◌};
ghost use Rattle.constants.specs.Kind.{class_of, role_of};

use super::Class::*;
use super::Role::*;
use super::{Class, Role};

/// The kinds from 0x1000 to 0x115F.
static KINDS: [(Class, Role); 352] = [
    (Unknown, Neither), // 0x1000 S_TI16_MAX
    (RegisterVariable, Neither), // 0x1001 S_REGISTER_ST
    (Constant, Neither), // 0x1002 S_CONSTANT_ST
    (UserDefinedType, Neither), // 0x1003 S_UDT_ST
    (UserDefinedType, Neither), // 0x1004 S_COBOLUDT_ST
    (MultiRegisterVariable, Neither), // 0x1005 S_MANYREG_ST
    (Unknown, Neither), // 0x1006 S_BPREL32_ST
    (Data, Neither), // 0x1007 S_LDATA32_ST
    (Data, Neither), // 0x1008 S_GDATA32_ST
    (Public, Neither), // 0x1009 S_PUB32_ST
    (Procedure, Opens), // 0x100a S_LPROC32_ST
    (Procedure, Opens), // 0x100b S_GPROC32_ST
    (Unknown, Neither), // 0x100c S_VFTABLE32
    (Unknown, Neither), // 0x100d S_REGREL32_ST
    (ThreadStorage, Neither), // 0x100e S_LTHREAD32_ST
    (ThreadStorage, Neither), // 0x100f S_GTHREAD32_ST
    (Unknown, Opens), // 0x1010 S_LPROCMIPS_ST
    (Unknown, Opens), // 0x1011 S_GPROCMIPS_ST
    (Unknown, Neither), // 0x1012 S_FRAMEPROC
    (CompileFlags, Neither), // 0x1013 S_COMPILE2_ST
    (MultiRegisterVariable, Neither), // 0x1014 S_MANYREG2_ST
    (Unknown, Opens), // 0x1015 S_LPROCIA64_ST
    (Unknown, Opens), // 0x1016 S_GPROCIA64_ST
    (Unknown, Neither), // 0x1017 S_LOCALSLOT_ST
    (Unknown, Neither), // 0x1018 S_PARAMSLOT_ST
    (Unknown, Neither), // 0x1019 S_ANNOTATION
    (Unknown, Opens), // 0x101a S_GMANPROC_ST
    (Unknown, Opens), // 0x101b S_LMANPROC_ST
    (Unknown, Neither), // 0x101c S_RESERVED1
    (Unknown, Neither), // 0x101d S_RESERVED2
    (Unknown, Neither), // 0x101e S_RESERVED3
    (Unknown, Neither), // 0x101f S_RESERVED4
    (Data, Neither), // 0x1020 S_LMANDATA_ST
    (Data, Neither), // 0x1021 S_GMANDATA_ST
    (Unknown, Neither), // 0x1022 S_MANFRAMEREL_ST
    (Unknown, Neither), // 0x1023 S_MANREGISTER_ST
    (Unknown, Neither), // 0x1024 S_MANSLOT_ST
    (Unknown, Neither), // 0x1025 S_MANMANYREG_ST
    (Unknown, Neither), // 0x1026 S_MANREGREL_ST
    (Unknown, Neither), // 0x1027 S_MANMANYREG2_ST
    (Unknown, Neither), // 0x1028 S_MANTYPREF
    (UsingNamespace, Neither), // 0x1029 S_UNAMESPACE_ST
    (Unknown, Neither), // 0x102a
    (Unknown, Neither), // 0x102b
    (Unknown, Neither), // 0x102c
    (Unknown, Neither), // 0x102d
    (Unknown, Neither), // 0x102e
    (Unknown, Neither), // 0x102f
    (Unknown, Neither), // 0x1030
    (Unknown, Neither), // 0x1031
    (Unknown, Neither), // 0x1032
    (Unknown, Neither), // 0x1033
    (Unknown, Neither), // 0x1034
    (Unknown, Neither), // 0x1035
    (Unknown, Neither), // 0x1036
    (Unknown, Neither), // 0x1037
    (Unknown, Neither), // 0x1038
    (Unknown, Neither), // 0x1039
    (Unknown, Neither), // 0x103a
    (Unknown, Neither), // 0x103b
    (Unknown, Neither), // 0x103c
    (Unknown, Neither), // 0x103d
    (Unknown, Neither), // 0x103e
    (Unknown, Neither), // 0x103f
    (Unknown, Neither), // 0x1040
    (Unknown, Neither), // 0x1041
    (Unknown, Neither), // 0x1042
    (Unknown, Neither), // 0x1043
    (Unknown, Neither), // 0x1044
    (Unknown, Neither), // 0x1045
    (Unknown, Neither), // 0x1046
    (Unknown, Neither), // 0x1047
    (Unknown, Neither), // 0x1048
    (Unknown, Neither), // 0x1049
    (Unknown, Neither), // 0x104a
    (Unknown, Neither), // 0x104b
    (Unknown, Neither), // 0x104c
    (Unknown, Neither), // 0x104d
    (Unknown, Neither), // 0x104e
    (Unknown, Neither), // 0x104f
    (Unknown, Neither), // 0x1050
    (Unknown, Neither), // 0x1051
    (Unknown, Neither), // 0x1052
    (Unknown, Neither), // 0x1053
    (Unknown, Neither), // 0x1054
    (Unknown, Neither), // 0x1055
    (Unknown, Neither), // 0x1056
    (Unknown, Neither), // 0x1057
    (Unknown, Neither), // 0x1058
    (Unknown, Neither), // 0x1059
    (Unknown, Neither), // 0x105a
    (Unknown, Neither), // 0x105b
    (Unknown, Neither), // 0x105c
    (Unknown, Neither), // 0x105d
    (Unknown, Neither), // 0x105e
    (Unknown, Neither), // 0x105f
    (Unknown, Neither), // 0x1060
    (Unknown, Neither), // 0x1061
    (Unknown, Neither), // 0x1062
    (Unknown, Neither), // 0x1063
    (Unknown, Neither), // 0x1064
    (Unknown, Neither), // 0x1065
    (Unknown, Neither), // 0x1066
    (Unknown, Neither), // 0x1067
    (Unknown, Neither), // 0x1068
    (Unknown, Neither), // 0x1069
    (Unknown, Neither), // 0x106a
    (Unknown, Neither), // 0x106b
    (Unknown, Neither), // 0x106c
    (Unknown, Neither), // 0x106d
    (Unknown, Neither), // 0x106e
    (Unknown, Neither), // 0x106f
    (Unknown, Neither), // 0x1070
    (Unknown, Neither), // 0x1071
    (Unknown, Neither), // 0x1072
    (Unknown, Neither), // 0x1073
    (Unknown, Neither), // 0x1074
    (Unknown, Neither), // 0x1075
    (Unknown, Neither), // 0x1076
    (Unknown, Neither), // 0x1077
    (Unknown, Neither), // 0x1078
    (Unknown, Neither), // 0x1079
    (Unknown, Neither), // 0x107a
    (Unknown, Neither), // 0x107b
    (Unknown, Neither), // 0x107c
    (Unknown, Neither), // 0x107d
    (Unknown, Neither), // 0x107e
    (Unknown, Neither), // 0x107f
    (Unknown, Neither), // 0x1080
    (Unknown, Neither), // 0x1081
    (Unknown, Neither), // 0x1082
    (Unknown, Neither), // 0x1083
    (Unknown, Neither), // 0x1084
    (Unknown, Neither), // 0x1085
    (Unknown, Neither), // 0x1086
    (Unknown, Neither), // 0x1087
    (Unknown, Neither), // 0x1088
    (Unknown, Neither), // 0x1089
    (Unknown, Neither), // 0x108a
    (Unknown, Neither), // 0x108b
    (Unknown, Neither), // 0x108c
    (Unknown, Neither), // 0x108d
    (Unknown, Neither), // 0x108e
    (Unknown, Neither), // 0x108f
    (Unknown, Neither), // 0x1090
    (Unknown, Neither), // 0x1091
    (Unknown, Neither), // 0x1092
    (Unknown, Neither), // 0x1093
    (Unknown, Neither), // 0x1094
    (Unknown, Neither), // 0x1095
    (Unknown, Neither), // 0x1096
    (Unknown, Neither), // 0x1097
    (Unknown, Neither), // 0x1098
    (Unknown, Neither), // 0x1099
    (Unknown, Neither), // 0x109a
    (Unknown, Neither), // 0x109b
    (Unknown, Neither), // 0x109c
    (Unknown, Neither), // 0x109d
    (Unknown, Neither), // 0x109e
    (Unknown, Neither), // 0x109f
    (Unknown, Neither), // 0x10a0
    (Unknown, Neither), // 0x10a1
    (Unknown, Neither), // 0x10a2
    (Unknown, Neither), // 0x10a3
    (Unknown, Neither), // 0x10a4
    (Unknown, Neither), // 0x10a5
    (Unknown, Neither), // 0x10a6
    (Unknown, Neither), // 0x10a7
    (Unknown, Neither), // 0x10a8
    (Unknown, Neither), // 0x10a9
    (Unknown, Neither), // 0x10aa
    (Unknown, Neither), // 0x10ab
    (Unknown, Neither), // 0x10ac
    (Unknown, Neither), // 0x10ad
    (Unknown, Neither), // 0x10ae
    (Unknown, Neither), // 0x10af
    (Unknown, Neither), // 0x10b0
    (Unknown, Neither), // 0x10b1
    (Unknown, Neither), // 0x10b2
    (Unknown, Neither), // 0x10b3
    (Unknown, Neither), // 0x10b4
    (Unknown, Neither), // 0x10b5
    (Unknown, Neither), // 0x10b6
    (Unknown, Neither), // 0x10b7
    (Unknown, Neither), // 0x10b8
    (Unknown, Neither), // 0x10b9
    (Unknown, Neither), // 0x10ba
    (Unknown, Neither), // 0x10bb
    (Unknown, Neither), // 0x10bc
    (Unknown, Neither), // 0x10bd
    (Unknown, Neither), // 0x10be
    (Unknown, Neither), // 0x10bf
    (Unknown, Neither), // 0x10c0
    (Unknown, Neither), // 0x10c1
    (Unknown, Neither), // 0x10c2
    (Unknown, Neither), // 0x10c3
    (Unknown, Neither), // 0x10c4
    (Unknown, Neither), // 0x10c5
    (Unknown, Neither), // 0x10c6
    (Unknown, Neither), // 0x10c7
    (Unknown, Neither), // 0x10c8
    (Unknown, Neither), // 0x10c9
    (Unknown, Neither), // 0x10ca
    (Unknown, Neither), // 0x10cb
    (Unknown, Neither), // 0x10cc
    (Unknown, Neither), // 0x10cd
    (Unknown, Neither), // 0x10ce
    (Unknown, Neither), // 0x10cf
    (Unknown, Neither), // 0x10d0
    (Unknown, Neither), // 0x10d1
    (Unknown, Neither), // 0x10d2
    (Unknown, Neither), // 0x10d3
    (Unknown, Neither), // 0x10d4
    (Unknown, Neither), // 0x10d5
    (Unknown, Neither), // 0x10d6
    (Unknown, Neither), // 0x10d7
    (Unknown, Neither), // 0x10d8
    (Unknown, Neither), // 0x10d9
    (Unknown, Neither), // 0x10da
    (Unknown, Neither), // 0x10db
    (Unknown, Neither), // 0x10dc
    (Unknown, Neither), // 0x10dd
    (Unknown, Neither), // 0x10de
    (Unknown, Neither), // 0x10df
    (Unknown, Neither), // 0x10e0
    (Unknown, Neither), // 0x10e1
    (Unknown, Neither), // 0x10e2
    (Unknown, Neither), // 0x10e3
    (Unknown, Neither), // 0x10e4
    (Unknown, Neither), // 0x10e5
    (Unknown, Neither), // 0x10e6
    (Unknown, Neither), // 0x10e7
    (Unknown, Neither), // 0x10e8
    (Unknown, Neither), // 0x10e9
    (Unknown, Neither), // 0x10ea
    (Unknown, Neither), // 0x10eb
    (Unknown, Neither), // 0x10ec
    (Unknown, Neither), // 0x10ed
    (Unknown, Neither), // 0x10ee
    (Unknown, Neither), // 0x10ef
    (Unknown, Neither), // 0x10f0
    (Unknown, Neither), // 0x10f1
    (Unknown, Neither), // 0x10f2
    (Unknown, Neither), // 0x10f3
    (Unknown, Neither), // 0x10f4
    (Unknown, Neither), // 0x10f5
    (Unknown, Neither), // 0x10f6
    (Unknown, Neither), // 0x10f7
    (Unknown, Neither), // 0x10f8
    (Unknown, Neither), // 0x10f9
    (Unknown, Neither), // 0x10fa
    (Unknown, Neither), // 0x10fb
    (Unknown, Neither), // 0x10fc
    (Unknown, Neither), // 0x10fd
    (Unknown, Neither), // 0x10fe
    (Unknown, Neither), // 0x10ff
    (Unknown, Neither), // 0x1100 S_ST_MAX
    (ObjName, Neither), // 0x1101 S_OBJNAME
    (Thunk, Opens), // 0x1102 S_THUNK32
    (Block, Opens), // 0x1103 S_BLOCK32
    (Unknown, Opens), // 0x1104 S_WITH32
    (Label, Neither), // 0x1105 S_LABEL32
    (RegisterVariable, Neither), // 0x1106 S_REGISTER
    (Constant, Neither), // 0x1107 S_CONSTANT
    (UserDefinedType, Neither), // 0x1108 S_UDT
    (UserDefinedType, Neither), // 0x1109 S_COBOLUDT
    (MultiRegisterVariable, Neither), // 0x110a S_MANYREG
    (Unknown, Neither), // 0x110b S_BPREL32
    (Data, Neither), // 0x110c S_LDATA32
    (Data, Neither), // 0x110d S_GDATA32
    (Public, Neither), // 0x110e S_PUB32
    (Procedure, Opens), // 0x110f S_LPROC32
    (Procedure, Opens), // 0x1110 S_GPROC32
    (RegisterRelative, Neither), // 0x1111 S_REGREL32
    (ThreadStorage, Neither), // 0x1112 S_LTHREAD32
    (ThreadStorage, Neither), // 0x1113 S_GTHREAD32
    (Unknown, Opens), // 0x1114 S_LPROCMIPS
    (Unknown, Opens), // 0x1115 S_GPROCMIPS
    (CompileFlags, Neither), // 0x1116 S_COMPILE2
    (MultiRegisterVariable, Neither), // 0x1117 S_MANYREG2
    (Unknown, Opens), // 0x1118 S_LPROCIA64
    (Unknown, Opens), // 0x1119 S_GPROCIA64
    (Unknown, Neither), // 0x111a S_LOCALSLOT
    (Unknown, Neither), // 0x111b S_PARAMSLOT
    (Data, Neither), // 0x111c S_LMANDATA
    (Data, Neither), // 0x111d S_GMANDATA
    (Unknown, Neither), // 0x111e S_MANFRAMEREL
    (Unknown, Neither), // 0x111f S_MANREGISTER
    (Unknown, Neither), // 0x1120 S_MANSLOT
    (Unknown, Neither), // 0x1121 S_MANMANYREG
    (Unknown, Neither), // 0x1122 S_MANREGREL
    (Unknown, Neither), // 0x1123 S_MANMANYREG2
    (UsingNamespace, Neither), // 0x1124 S_UNAMESPACE
    (ProcedureReference, Neither), // 0x1125 S_PROCREF
    (DataReference, Neither), // 0x1126 S_DATAREF
    (ProcedureReference, Neither), // 0x1127 S_LPROCREF
    (AnnotationReference, Neither), // 0x1128 S_ANNOTATIONREF
    (Unknown, Neither), // 0x1129 S_TOKENREF
    (Unknown, Opens), // 0x112a S_GMANPROC
    (Unknown, Opens), // 0x112b S_LMANPROC
    (Trampoline, Neither), // 0x112c S_TRAMPOLINE
    (Constant, Neither), // 0x112d S_MANCONSTANT
    (Unknown, Neither), // 0x112e S_ATTR_FRAMEREL
    (Unknown, Neither), // 0x112f S_ATTR_REGISTER
    (Unknown, Neither), // 0x1130 S_ATTR_REGREL
    (Unknown, Neither), // 0x1131 S_ATTR_MANYREG
    (SeparatedCode, Opens), // 0x1132 S_SEPCODE
    (Unknown, Neither), // 0x1133 S_LOCAL_2005
    (Unknown, Neither), // 0x1134 S_DEFRANGE_2005
    (Unknown, Neither), // 0x1135 S_DEFRANGE2_2005
    (Unknown, Neither), // 0x1136 S_SECTION
    (Unknown, Neither), // 0x1137 S_COFFGROUP
    (Export, Neither), // 0x1138 S_EXPORT
    (Unknown, Neither), // 0x1139 S_CALLSITEINFO
    (Unknown, Neither), // 0x113a S_FRAMECOOKIE
    (Unknown, Neither), // 0x113b S_DISCARDED
    (CompileFlags, Neither), // 0x113c S_COMPILE3
    (Unknown, Neither), // 0x113d S_ENVBLOCK
    (Local, Neither), // 0x113e S_LOCAL
    (Unknown, Neither), // 0x113f S_DEFRANGE
    (Unknown, Neither), // 0x1140 S_DEFRANGE_SUBFIELD
    (Unknown, Neither), // 0x1141 S_DEFRANGE_REGISTER
    (Unknown, Neither), // 0x1142 S_DEFRANGE_FRAMEPOINTER_REL
    (Unknown, Neither), // 0x1143 S_DEFRANGE_SUBFIELD_REGISTER
    (Unknown, Neither), // 0x1144 S_DEFRANGE_FRAMEPOINTER_REL_FULL_SCOPE
    (Unknown, Neither), // 0x1145 S_DEFRANGE_REGISTER_REL
    (Procedure, Neither), // 0x1146 S_LPROC32_ID
    (Procedure, Opens), // 0x1147 S_GPROC32_ID
    (Unknown, Neither), // 0x1148 S_LPROCMIPS_ID
    (Unknown, Opens), // 0x1149 S_GPROCMIPS_ID
    (Unknown, Neither), // 0x114a S_LPROCIA64_ID
    (Unknown, Opens), // 0x114b S_GPROCIA64_ID
    (BuildInfo, Neither), // 0x114c S_BUILDINFO
    (InlineSite, Opens), // 0x114d S_INLINESITE
    (InlineSiteEnd, Closes), // 0x114e S_INLINESITE_END
    (ProcedureEnd, Closes), // 0x114f S_PROC_ID_END
    (Unknown, Neither), // 0x1150 S_DEFRANGE_HLSL
    (Unknown, Neither), // 0x1151 S_GDATA_HLSL
    (Unknown, Neither), // 0x1152 S_LDATA_HLSL
    (Unknown, Neither), // 0x1153 S_FILESTATIC
    (Unknown, Neither), // 0x1154 S_LOCAL_DPC_GROUPSHARED
    (Procedure, Opens), // 0x1155 S_LPROC32_DPC
    (Procedure, Opens), // 0x1156 S_LPROC32_DPC_ID
    (Unknown, Neither), // 0x1157 S_DEFRANGE_DPC_PTR_TAG
    (Unknown, Neither), // 0x1158 S_DPC_SYM_TAG_MAP
    (Unknown, Neither), // 0x1159 S_ARMSWITCHTABLE
    (Unknown, Neither), // 0x115a S_CALLEES
    (Unknown, Neither), // 0x115b S_CALLERS
    (Unknown, Neither), // 0x115c S_POGODATA
    (InlineSite, Opens), // 0x115d S_INLINESITE2
    (Unknown, Neither), // 0x115e S_HEAPALLOCSITE
    (Unknown, Neither), // 0x115f S_MOD_TYPEREF
];

/// The kinds below 0x1000.
fn old_entry(kind: u16) -> (Class, Role)
    requires { kind < 0x1000 }
    ensures { result ≡ (class_of kind, role_of kind) }
{
    match kind {
        0x0006 => (ScopeEnd, Closes), // S_END
        0x0009 => (ObjName, Neither), // S_OBJNAME_ST
        0x0104 => (Unknown, Opens), // S_LPROC16
        0x0105 => (Unknown, Opens), // S_GPROC16
        0x0106 => (Unknown, Opens), // S_THUNK16
        0x0107 => (Unknown, Opens), // S_BLOCK16
        0x0108 => (Unknown, Opens), // S_WITH16
        0x0206 => (Thunk, Opens), // S_THUNK32_ST
        0x0207 => (Block, Opens), // S_BLOCK32_ST
        0x0208 => (Unknown, Opens), // S_WITH32_ST
        0x0209 => (Label, Neither), // S_LABEL32_ST
        0x0400 => (ProcedureReference, Neither), // S_PROCREF_ST
        0x0401 => (DataReference, Neither), // S_DATAREF_ST
        0x0403 => (ProcedureReference, Neither), // S_LPROCREF_ST
        _ => (Unknown, Neither),
    }
}

/// The class and the role of any kind.
#[inline(always)]
pub fn entry(kind: u16) -> (Class, Role)
    ensures { result ≡ (class_of kind, role_of kind) }
{
    match kind {
        0x1160.. => (Unknown, Neither),
        0x1000.. => KINDS[(kind - 0x1000) as usize],
        _ => old_entry(kind),
    }
}
