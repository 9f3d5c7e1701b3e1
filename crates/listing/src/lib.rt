// The listing of a stream: for each record a line with its index, its kind and its name.
//
// The text is made in lent bytes, since no heap is to be had here and no listing can fail; the contracts say which bytes it is. What a
// program prints no contract can say: the programs above read a stream, call `put_listing` and write its text.
#![tactic(auto)]

mod text;

ghost use Rattle.std.specs.Prelude.{◌≡◌, ◌+◌, ◌≤◌, length, MatchResult};
ghost use Rattle.io.specs.Counts.{IsPrefixLen};
ghost use Rattle.symbol.specs.Name.{name_of};
ghost use Rattle.iter.specs.Reading.{ends, refuses, read_of};
ghost use Rattle.listing.specs.Listing.{name_shown, line_of, refused_line, lines_of, max_listed, listed_from, listing_of};
ghost use Rattle.listing.specs.Puts.{Puts, HasRoom, Writes};

use common::Refusal;
use iter::{Next, Record};
use text::Text;

/// The longest stream that is listed.
pub const MAX_LISTED: usize = 65536;

/// Where the records of a stream begin that is listed: behind the signature.
pub const LISTED_FROM: usize = 4;

/// Room for the listing of any stream: a line is at most 13 times as long as its record with the length field.
pub const TEXT_ROOM: usize = 13 * MAX_LISTED;

/// Room for a stream, and for the byte that makes it too long. (The `ensures` gives only the length, which lending it as a slice needs.)
pub fn stream_room() -> [u8; MAX_LISTED + 1]
    ensures { max_listed + 1 ≡ length result }
{
    [0; MAX_LISTED + 1]
}

/// Puts the name of a record, `-` where it has none, `!` and the number where it is refused.
fn put_name(text: &mut Text, rec: &[u8])
    requires { HasRoom (name_shown rec.now (name_of rec.now)) text.old }
    ensures { Writes (name_shown rec.now (name_of rec.now)) text.old text.new }
{
    match symbol::name::name(rec) {
        Ok(Some(part)) => text.put_shown(names::as_bytes(rec, part)),
        Ok(None) => text.put(b"-"),
        Err(e) => {
            text.put(b"!");
            text.put_decimal(e.number() as usize);
        }
    }
}

/// Puts the line of a record, whose bytes are lent with it: the index, four hexadecimal digits of the kind, and the name.
#[tactic(auto, unfolding(crate::specs::Listing::line_of))]
fn put_line(text: &mut Text, r: Record, rec: &[u8])
    requires { HasRoom (line_of r.index r.kind rec.now) text.old }
    ensures { Writes (line_of r.index r.kind rec.now) text.old text.new }
{
    text.put_decimal(r.index);
    text.put(b" ");
    text.put_kind(r.kind);
    text.put(b" ");
    put_name(text, rec);
    text.put(b"\n");
}

/// Puts the line that ends a listing: `refused`, the number and the position. (It is 50 bytes long at the most: a word, two spaces, two
/// numbers of 20 digits and a line feed.)
#[tactic(auto, using(crate::proofs::Lines::decimal_most))]
fn put_refused(text: &mut Text, refusal: Refusal)
    requires { text.old.len + 50 ≤ TEXT_ROOM }
    ensures { Writes (refused_line refusal) text.old text.new }
{
    text.put(b"refused ");
    text.put_decimal(refusal.number() as usize);
    text.put(b" ");
    text.put_decimal(refusal.position());
    text.put(b"\n");
}

/// Puts the lines of a stream, from behind its signature on, up to its end or to a step that refuses.
#[tactic(auto, using(iter::proofs::Steps::start_le_next, iter::proofs::Steps::next_within, iter::proofs::Steps::less_left))]
fn put_lines(text: &mut Text, s: &[u8]) -> Result<(), Refusal>
    requires empty { text.old.len ≡ 0 }
    requires listed { length s.now ≤ max_listed }
    ensures lines { Writes (lines_of (read_of s.now listed_from).recs) text.old text.new }
    ensures ending { MatchResult result (λ _. (read_of s.now listed_from).last.ending ≡ ends) (λ e. (read_of s.now listed_from).last.ending ≡ refuses e) }
    ensures room { text.new.len + 50 ≤ TEXT_ROOM }
{
    let mut at = LISTED_FROM;
    // By position: the check counts fillers and the jump leaves the row, so that an Iterator would serve the walk and the listing alone.
    loop {
        match iter::step(s, at)? {
            Next::End(_) => return Ok(()),
            Next::Record(r) => {
                put_line(text, r, &s[r.start..r.next]);
                at = r.next;
            }
        }
    }
}

/// Puts the listing of a stream.
fn put_stream(text: &mut Text, s: &[u8])
    requires { text.old.len ≡ 0 }
    ensures { Writes (listing_of s.now) text.old text.new }
{
    if MAX_LISTED < s.len() {
        put_refused(text, Refusal::TooLong);
        return;
    }
    if let Err(e) = put_lines(text, s) {
        put_refused(text, e);
    }
}

/// Puts the listing of a stream at the start of the lent bytes and answers its length. The bytes behind it stay as they were. (The first
/// `ensures` follows from the second; it is there for `&text[..n]`.)
#[tactic(auto, using(crate::proofs::Listings::from_start))]
pub fn put_listing(s: &[u8], text: &mut [u8; TEXT_ROOM]) -> usize
    ensures prefix_len { IsPrefixLen result text.new }
    ensures puts { Puts (listing_of s.now) 0 text.old text.new result }
{
    let mut text = Text::new(text);
    put_stream(&mut text, s);
    text.len()
}
