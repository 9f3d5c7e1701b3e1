// The records about modules and what links them: object files, compilers, references, publics, exports and trampolines.
//
// A decoder is given a buffer whose kind is read, and reads the fields in the order of the layout. It answers its own record, as pdb's do,
// with the position behind it, and is inlined: where `decode_to` (crate symbol) calls it, the record is taken apart. The kind stands beside
// the buffer, as in pdb.
#![tactic(auto)]

pub mod compile;
pub mod linkage;
pub mod object;
pub mod reference;
