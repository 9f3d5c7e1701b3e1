// The records of code: procedures, blocks, inline sites and thunks. (The ends of scopes have no fields: their layouts alone stand here.)
//
// A decoder is given a buffer whose kind is read, and reads the fields in the order of the layout. It answers its own record, as pdb's do,
// with the position behind it, and is inlined: where `decode_to` (crate symbol) calls it, the record is taken apart. The kind stands beside
// the buffer, as in pdb.
#![tactic(auto)]

pub mod block;
pub mod inline_site;
pub mod procedure;
pub mod thunk;
