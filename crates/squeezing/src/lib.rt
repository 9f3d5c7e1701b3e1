// Squeezing out filler: a stream written anew without its fillers, save those before the first record; and what that would give, without
// writing. Two passes over the records: one plans, one writes.
#![tactic(auto)]

mod landing;
mod plan;

ghost use Rattle.std.specs.Prelude.{◌≡◌, ◌≤◌, [], reverse, length, take, IfOk};
ghost use Rattle.common.specs.Bytes.{put};
ghost use Rattle.iter.specs.Reading.{read_of};
ghost use Rattle.check_nesting.specs.Nesting.{Nests};
ghost use Rattle.squeezing.specs.Squeeze.{moved_link, squeezed_from, squeezed, squeeze_of, buffer_by};
ghost use Rattle.squeezing.specs.Squeezes.{Squeezes};
ghost use Rattle.squeezing.specs.Preview.{preview_of};
ghost use Rattle.squeezing.specs.Foretells.{Foretells};
ghost use Rattle.squeezing.specs.Landing.{Lands, landing_at};
ghost use Rattle.squeezing.specs.Write.{innermost};

use arrayvec::ArrayVec;
use chain::MAX_DEPTH;
use common::Refusal;
use common::put::put;
use constants::Role;
use iter::{Next, Record};
use landing::{Landing, landing_from, landing_of};
use plan::{Planned, next_of, plan};

/// A link, moved to where the record that it names lands; 0 stays.
fn moved_link(s: &[u8], first: usize, known: &mut Landing, link: usize) -> usize
    requires { Lands s.now first known.old }
    ensures moved { result ≡ moved_link (landing_at s.now first) link }
    ensures known { Lands s.now first known.new }
{
    if link == 0 {
        return 0;
    }
    landing_of(s, first, known, link).unwrap_or(0)
}

/// Where the innermost of the openers lands, which are listed with the innermost last; 0 where none is.
fn innermost(openers: &[usize]) -> usize
    ensures { result ≡ innermost (reverse openers.now) }
{
    openers.last().map_or(0, |opener| *opener)
}

/// Writes the squeezed stream. An end is written when its closer is met: until then it stands as it was.
#[tactic(auto, using(iter::proofs::Steps::index_le_next, iter::proofs::Steps::start_le_next, iter::proofs::Steps::next_within, iter::proofs::Steps::less_left, iter::proofs::Steps::lent_kind))]
fn write(s: &[u8], first: usize, buffer: &mut [u8])
    requires within { first ≤ length s.now }
    requires nests { Nests (read_of s.now first).recs [] }
    requires room { length (squeezed_from s.now first (read_of s.now first).recs) ≤ length buffer.old }
    ensures { buffer.new ≡ put 0 (squeezed_from s.now first (read_of s.now first).recs) buffer.old }
{
    put(buffer, 0, &s[..first]);
    let mut openers: ArrayVec<usize, MAX_DEPTH> = ArrayVec::new();
    let mut here = Landing::first(first);
    let mut known = here;
    loop {
        match iter::step(s, here.at) {
            Err(_) => return,
            Ok(Next::End(_)) => return,
            Ok(Next::Record(r)) => {
                let next = next_of(r, &s[r.start..r.next]);
                let next = moved_link(s, first, &mut known, next);
                let to = here.to;
                here = here.behind(r);
                put(buffer, to, &s[r.index..r.next]);
                match constants::nesting_role(r.kind) {
                    Role::Neither => {}
                    Role::Opens => {
                        links::put_parent_and_next(
                            buffer,
                            r.kind,
                            to + 2,
                            innermost(&openers),
                            next,
                        );
                        openers.push(to);
                    }
                    Role::Closes => {
                        links::put_end(buffer, innermost(&openers) + 2, to);
                        openers.pop();
                    }
                }
            }
        }
    }
}

/// Squeezes a stream from a start on into a lent buffer, and answers the length written. A buffer as long as the stream is long enough.
pub fn squeeze(s: &[u8], start: usize, buffer: &mut [u8]) -> Result<usize, Refusal>
    ensures value { result ≡ squeeze_of s.now start (length buffer.old) }
    ensures buffer { buffer.new ≡ buffer_by (squeeze_of s.now start (length buffer.old)) (squeezed s.now start) buffer.old }
    ensures squeezes { IfOk result (λ n. Squeezes s.now start (take n buffer.new)) }
{
    let Planned { first, length, .. } = plan(s, start)?;
    if buffer.len() < length {
        return Err(Refusal::NoRoom);
    }
    write(s, first, buffer);
    Ok(length)
}

/// What squeezing a stream would give.
#[derive(Clone, Copy, Debug, PartialEq, Eq)]
pub struct Gain {
    /// The length that would be written.
    pub length: usize,

    /// The fillers that would be dropped: those behind the first record.
    pub dropped: usize,

    /// Where the record that was asked for would begin.
    pub at: usize,
}

/// What squeezing a stream from a start on would give, and where the record at i would begin.
pub fn preview(s: &[u8], start: usize, i: usize) -> Result<Gain, Refusal>
    ensures value { result ≡ preview_of s.now start i }
    ensures foretells { Foretells s.now start i result }
{
    let Planned {
        first,
        length,
        dropped,
    } = plan(s, start)?;
    match landing_from(s, Landing::first(first), i) {
        None => Err(Refusal::NothingThere),
        Some(at) => Ok(Gain {
            length,
            dropped,
            at,
        }),
    }
}
