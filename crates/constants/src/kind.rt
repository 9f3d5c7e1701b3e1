// What the kind of a record says of it (pdb's Symbol: raw_kind, starts_scope, ends_scope). These never refuse, at any length.
#![tactic(auto, unfolding(crate::specs::Raw::raw_kind, crate::specs::Kind::starts_scope, crate::specs::Kind::ends_scope, common::specs::Reader::number))]

ghost use Rattle.std.specs.Prelude.{◌≡◌};
ghost use Rattle.constants.specs.Kind.{starts_scope, ends_scope};
ghost use Rattle.constants.specs.Raw.{raw_kind};

use super::Role;
use common::buffer::ParseBuffer;

/// The kind; 0 below 2 bytes.
pub fn raw_kind(s: &[u8]) -> u16
    ensures { result ≡ raw_kind s.now }
{
    ParseBuffer::new(s).parse().unwrap_or(0)
}

/// Whether the record opens a scope, to pdb. (To the check and the finders S_LPROC32_ID does too: `nesting_role`.)
pub fn starts_scope(s: &[u8]) -> bool
    ensures { result ≡ starts_scope (raw_kind s.now) }
{
    super::role_of(raw_kind(s)) == Role::Opens
}

/// Whether the record closes a scope. (Two functions, as pdb has them.)
pub fn ends_scope(s: &[u8]) -> bool
    ensures { result ≡ ends_scope (raw_kind s.now) }
{
    super::role_of(raw_kind(s)) == Role::Closes
}
