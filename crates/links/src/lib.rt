// What the check, the finders and the squeeze look at in an opener: its links.
#![tactic(auto)]

ghost use Rattle.std.specs.Prelude.{◌≡◌, ◌+◌, ◌≤◌, ◌<◌, true, cond, length};
ghost use Rattle.common.specs.Bytes.{le, put_u32};
ghost use Rattle.constants.specs.declared.Role.TheVariants.{Opens};
ghost use Rattle.constants.specs.Raw.{nesting_role_of};
ghost use Rattle.links.specs.Links.{end_at, next_at, has_next, links_of, put_parent_and_next};

use common::number::Number;
use common::put::put_u32;
use constants::Class;

/// Where the parent stands in every opener: behind its kind.
const PARENT_AT: usize = 2;

/// Where the end stands: behind the parent.
const END_AT: usize = 6;

/// Where the next stands in procedures and thunks: behind the end.
const NEXT_AT: usize = 10;

/// The links of an opener.
#[derive(Clone, Copy, Debug, PartialEq, Eq)]
pub struct Links {
    /// The position of the scope that encloses it, 0 where none does, as the field says: in a block it is a plain number.
    pub parent: u32,

    /// The position of the record that closes its scope.
    pub end: u32,

    /// The position of another procedure or thunk, 0 where none follows, and in the other openers, which have no such field.
    pub next: u32,
}

/// Whether openers of this kind have a next.
#[tactic(auto, unfolding(crate::specs::Links::has_next))]
pub fn has_next(kind: u16) -> bool
    ensures { result ≡ has_next kind }
{
    matches!(constants::class_of(kind), Class::Procedure | Class::Thunk)
}

/// The next that stands in an opener of this kind, 0 where it has none.
pub fn next_in(kind: u16, rec: &[u8]) -> u32
    requires { has_next kind ≡ true → 14 ≤ length rec.now }
    ensures { result ≡ cond (has_next kind) (le 4 rec.now next_at) 0 }
{
    if has_next(kind) {
        u32::at(rec, NEXT_AT)
    } else {
        0
    }
}

/// The links of an opener; none where decode refuses it, as name does. (Required here alone: behind another kind these bytes are other
/// fields.)
#[tactic(auto, using(crate::proofs::Openers::named_links_there, crate::proofs::Openers::named_next_there, crate::proofs::Openers::named_links, crate::proofs::Openers::unnamed_links))]
pub fn links_of(rec: &[u8]) -> Option<Links>
    requires { nesting_role_of rec.now ≡ Opens }
    ensures { result ≡ links_of rec.now }
{
    symbol::name::name(rec).ok()?;
    let next = next_in(constants::kind::raw_kind(rec), rec);
    Some(Links {
        parent: u32::at(rec, PARENT_AT),
        end: u32::at(rec, END_AT),
        next,
    })
}

/// Puts a position in a link.
fn put_link(buffer: &mut [u8], at: usize, position: usize)
    requires within { at + 4 ≤ length buffer.old }
    requires fits { position < 4294967296 }
    ensures { buffer.new ≡ put_u32 at position buffer.old }
{
    put_u32(buffer, at, position as u32);
}

/// Puts the parent and the next in an opener of this kind, whose bytes stand from `at` on.
pub fn put_parent_and_next(buffer: &mut [u8], kind: u16, at: usize, parent: usize, next: usize)
    requires within { at + 10 ≤ length buffer.old }
    requires next_within { has_next kind ≡ true → at + 14 ≤ length buffer.old }
    requires fits { (parent < 4294967296) × (next < 4294967296) }
    ensures { buffer.new ≡ put_parent_and_next kind at parent next buffer.old }
{
    put_link(buffer, at + PARENT_AT, parent);
    if has_next(kind) {
        put_link(buffer, at + NEXT_AT, next);
    }
}

/// Puts the end in an opener, whose bytes stand from `at` on.
pub fn put_end(buffer: &mut [u8], at: usize, end: usize)
    requires within { at + 10 ≤ length buffer.old }
    requires fits { end < 4294967296 }
    ensures { buffer.new ≡ put_u32 (at + end_at) end buffer.old }
{
    put_link(buffer, at + END_AT, end);
}
