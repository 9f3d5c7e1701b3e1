// Replies to a caller that lends words: the number that a call returns, and the words that it writes from place 0 on. The places behind
// them stay as they were. A part of a record is told by where it starts and how long it is.
#![tactic(auto)]

pub mod annotation;

ghost use Rattle.std.specs.Prelude.{◌≡◌, ◌≤◌, length};
ghost use Rattle.words.specs.Written.{written};
ghost use Rattle.reply.specs.Reply.{Replied, answers, refusal_reply};
ghost use Rattle.reply.specs.Replies.{step_reply, name_reply, entry_reply, check_reply, found_words, finding_reply, squeeze_reply, preview_reply};

use chain::Found;
use check_nesting::Counts;
use common::Refusal;
use iter::Next;
use names::Part;
use registers::entry::RegisterEntry;
use squeezing::Gain;
use words::put;

/// A refusal: its position and its detail.
pub fn refuse(out: &mut [u64], e: Refusal) -> u32
    requires { 2 ≤ length out.old }
    ensures { Replied (refusal_reply e) result out.old out.new }
{
    put(out, [e.position() as u64, e.detail()]);
    e.number() as u32
}

/// An answer: its words.
pub fn answer<const N: usize>(out: &mut [u64], words: [u64; N]) -> u32
    requires { N ≤ length out.old }
    ensures { Replied (answers words.entry) result out.old out.new }
{
    put(out, words);
    0
}

/// End: 0, position. A record: 1, index, its bytes, next position. (Each answer has its own words, and number of words: what replies share
/// is `answer` and `refuse`.)
pub fn reply_step(step: Result<Next, Refusal>, out: &mut [u64; 5]) -> u32
    ensures { Replied (step_reply step) result out.old out.new }
{
    match step {
        Ok(Next::End(at)) => answer(out, [0, at as u64]),
        Ok(Next::Record(r)) => answer(
            out,
            [
                1,
                r.index as u64,
                r.start as u64,
                r.len as u64,
                r.next as u64,
            ],
        ),
        Err(e) => refuse(out, e),
    }
}

/// 1 and the name; 0, 0, 0 where there is none.
pub fn reply_name(name: Result<Option<Part>, Refusal>, out: &mut [u64; 3]) -> u32
    ensures { Replied (name_reply name) result out.old out.new }
{
    match name {
        Ok(Some(p)) => answer(out, [1, p.start as u64, p.len as u64]),
        Ok(None) => answer(out, [0, 0, 0]),
        Err(e) => refuse(out, e),
    }
}

/// The register and its name.
pub fn reply_entry(entry: Result<RegisterEntry, Refusal>, out: &mut [u64; 3]) -> u32
    ensures { Replied (entry_reply entry) result out.old out.new }
{
    match entry {
        Ok(x) => answer(
            out,
            [x.register as u64, x.name.start as u64, x.name.len as u64],
        ),
        Err(e) => refuse(out, e),
    }
}

/// Records read and their bytes, fillers passed over and theirs, openers, deepest nesting.
pub fn reply_check(counts: Result<Counts, Refusal>, out: &mut [u64; 6]) -> u32
    ensures { Replied (check_reply counts) result out.old out.new }
{
    match counts {
        Ok(n) => answer(
            out,
            [
                n.records as u64,
                n.bytes as u64,
                n.fillers as u64,
                n.filler_bytes as u64,
                n.openers as u64,
                n.deepest as u64,
            ],
        ),
        Err(e) => refuse(out, e),
    }
}

/// The count of a finder, how many positions its chain has, and the 64 places.
fn put_found(f: Found, out: &mut [u64; 66])
    ensures { out.new ≡ written (found_words f) out.old }
{
    put(out, [f.count as u64, f.chain.len() as u64]);
    for (k, place) in f.chain.places().iter().enumerate() {
        out[2 + k] = *place as u64;
    }
}

/// The answer of a finder.
pub fn reply_chain(found: Result<Found, Refusal>, out: &mut [u64; 66]) -> u32
    ensures { Replied (finding_reply found) result out.old out.new }
{
    match found {
        Ok(f) => {
            put_found(f, out);
            0
        }
        Err(e) => refuse(out, e),
    }
}

/// The length written.
pub fn reply_squeeze(written: Result<usize, Refusal>, out: &mut [u64; 2]) -> u32
    ensures { Replied (squeeze_reply written) result out.old out.new }
{
    match written {
        Ok(n) => answer(out, [n as u64]),
        Err(e) => refuse(out, e),
    }
}

/// What a squeeze would give: the length, the fillers dropped, and where the record would begin.
pub fn reply_preview(gain: Result<Gain, Refusal>, out: &mut [u64; 3]) -> u32
    ensures { Replied (preview_reply gain) result out.old out.new }
{
    match gain {
        Ok(g) => answer(out, [g.length as u64, g.dropped as u64, g.at as u64]),
        Err(e) => refuse(out, e),
    }
}
