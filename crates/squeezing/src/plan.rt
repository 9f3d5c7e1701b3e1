// What squeezing a stream will do, found before a byte is written.
#![tactic(auto)]

ghost use Rattle.std.specs.Prelude.{◌≡◌, ◌||◌, eqb, is_some, []};
ghost use Rattle.constants.specs.Raw.{raw_kind};
ghost use Rattle.iter.specs.Reading.{read_of};
ghost use Rattle.check_nesting.specs.Nesting.{Nests};
ghost use Rattle.squeezing.specs.Squeeze.{record_links, next_by};
ghost use Rattle.squeezing.specs.Landing.{Lands, landing_at};
ghost use Rattle.squeezing.specs.Plan.{front_of, squeezed_length, plan_of, Readable};

use crate::landing::{Landing, landing_of};
use common::Refusal;
use constants::Role;
use iter::{Next, Record};

/// What stays in front of a squeezed stream.
#[derive(Clone, Copy, Debug, PartialEq, Eq)]
pub struct Front {
    /// Where the first record begins, which stays there; the end of the stream where there is none.
    pub first: usize,

    /// The fillers before it.
    pub fillers: usize,
}

/// What stays in front of a stream that is squeezed from a start on.
#[tactic(auto, using(crate::proofs::Plans::first_at_record, crate::proofs::Plans::first_at_end, crate::proofs::Plans::first_at_refusal), unfolding(crate::specs::Plan::front_of))]
fn front_of(s: &[u8], start: usize) -> Front
    ensures { result ≡ front_of s.now start }
{
    let scan = iter::scan_at(s, start);
    let first = match scan.step {
        Ok(Next::Record(r)) => r.index,
        Ok(Next::End(_)) => s.len(),
        Err(_) => s.len(),
    };
    Front {
        first,
        fillers: scan.fillers,
    }
}

/// What a squeeze does.
#[derive(Clone, Copy, Debug, PartialEq, Eq)]
pub struct Planned {
    /// Where the first record begins, which stays there; the end of the stream where there is none.
    pub first: usize,

    /// The length of the squeezed stream.
    pub length: usize,

    /// The fillers that are dropped: those behind the first record.
    pub dropped: usize,
}

/// The next of a record, whose bytes are lent with it, 0 where it has none.
pub fn next_of(r: Record, rec: &[u8]) -> usize
    requires kind { r.kind ≡ raw_kind rec.now }
    requires readable { Readable rec.now }
    ensures { result ≡ next_by (record_links rec.now) }
{
    match constants::nesting_role(r.kind) {
        Role::Opens => links::next_in(r.kind, rec) as usize,
        Role::Closes => 0,
        Role::Neither => 0,
    }
}

/// Whether a next is 0 or names a record.
fn is_named(s: &[u8], first: usize, known: &mut Landing, next: usize) -> bool
    requires { Lands s.now first known.old }
    ensures named { result ≡ (eqb next 0 || is_some (landing_at s.now first next)) }
    ensures known { Lands s.now first known.new }
{
    next == 0 || landing_of(s, first, known, next).is_some()
}

/// The length of the squeezed stream whose first record is this, or 17.
#[tactic(auto, using(iter::proofs::Steps::start_le_next, iter::proofs::Steps::next_within, iter::proofs::Steps::less_left, iter::proofs::Steps::lent_kind))]
fn squeezed_length(s: &[u8], first: usize) -> Result<usize, Refusal>
    requires { Nests (read_of s.now first).recs [] }
    ensures { result ≡ squeezed_length s.now first }
{
    let mut here = Landing::first(first);
    let mut known = here;
    loop {
        match iter::step(s, here.at) {
            Err(_) => return Ok(here.to),
            Ok(Next::End(_)) => return Ok(here.to),
            Ok(Next::Record(r)) => {
                let next = next_of(r, &s[r.start..r.next]);
                if !is_named(s, first, &mut known, next) {
                    return Err(Refusal::WrongNext(r.index));
                }
                here = here.behind(r);
            }
        }
    }
}

/// The plan of a squeeze, or the check's refusal, or 17.
pub fn plan(s: &[u8], start: usize) -> Result<Planned, Refusal>
    ensures { result ≡ plan_of s.now start }
{
    let counts = check_nesting::check(s, start)?;
    let front = front_of(s, start);
    let length = squeezed_length(s, front.first)?;
    Ok(Planned {
        first: front.first,
        length,
        dropped: counts.fillers - front.fillers,
    })
}
