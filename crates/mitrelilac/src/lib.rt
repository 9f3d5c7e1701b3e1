// The library for C: the operations behind plain calls on lent bytes and numbers. Crate mitrelilac_c exports them.
//
// A call that answers returns 0 and writes its words to those lent to it, from place 0 on; one that refuses returns the number of the
// refusal and writes two, position and detail. Every other word stays as it was. No call keeps a reference or allocates.
//
// Module `condition3`: what is proved of the check and the finders together.
#![tactic(auto)]

pub mod condition3;

ghost use Rattle.std.specs.Prelude.{◌≡◌, length};
ghost use Rattle.constants.specs.Raw.{raw_kind};
ghost use Rattle.symbol.specs.Decode.{decode};
ghost use Rattle.symbol.specs.Name.{name_of};
ghost use Rattle.symbol.specs.Entry.{register_entry};
ghost use Rattle.annotations.specs.Annotation.{annotation};
ghost use Rattle.iter.specs.Step.{step_of};
ghost use Rattle.check_nesting.specs.Check.{check_of};
ghost use Rattle.walk.specs.Walk.{walk_of};
ghost use Rattle.jump.specs.Jump.{jump_of};
ghost use Rattle.climb.specs.Climb.{climb_of};
ghost use Rattle.squeezing.specs.Squeeze.{squeezed, squeeze_of, buffer_by};
ghost use Rattle.squeezing.specs.Preview.{preview_of};
ghost use Rattle.reply.specs.Reply.{Replied};
ghost use Rattle.reply.specs.Replies.{step_reply, kind_reply, decode_reply, name_reply, entry_reply, annotation_reply, check_reply, finding_reply, squeeze_reply, preview_reply};
ghost use Rattle.mitrelilac.specs.Exported.{call, SumsUp, CallMovesOn, CallSqueezes, CallForetells};

use records::Decoded;

/// One step from a position. End: 0, position. A record: 1, index, where its bytes start, how many they are, next position.
pub fn mitrelilac_step(stream: &[u8], position: usize, out: &mut [u64; 5]) -> u32
    ensures { Replied (step_reply (step_of stream.now position)) result out.old out.new }
{
    reply::reply_step(iter::step(stream, position), out)
}

/// The kind of a record, 1 if it opens a scope (to pdb, which leaves S_LPROC32_ID out), 1 if it closes one. Never refuses.
pub fn mitrelilac_kind(rec: &[u8], out: &mut [u64; 3]) -> u32
    ensures { Replied (kind_reply (raw_kind rec.now)) result out.old out.new }
{
    let kind = constants::kind::raw_kind(rec);
    let opener = constants::kind::starts_scope(rec);
    let closer = constants::kind::ends_scope(rec);
    reply::answer(out, [kind as u64, opener as u64, closer as u64])
}

/// A record decoded: the number of its class, the bytes consumed, and its fields.
#[tactic(auto, unfolding(symbol::specs::Decode::decode))]
pub fn mitrelilac_decode(rec: &[u8], out: &mut [u64; 24]) -> u32
    ensures { Replied (decode_reply (decode rec.now)) result out.old out.new }
{
    symbol::decode_to!(rec, reply_decoded, out)
}

/// The reply to what decode answers: the words of the record, or the refusal.
#[inline(always)]
fn reply_decoded(decoded: Decoded, out: &mut [u64; 24]) -> u32
    ensures { Replied (decode_reply decoded) result out.old out.new }
{
    match &decoded {
        Ok((d, consumed)) => {
            record_words::write_record(d, *consumed, out);
            0
        }
        Err(e) => reply::refuse(out, *e),
    }
}

/// The name of a record: 1, where it starts, how long it is; 0, 0, 0 where there is none.
pub fn mitrelilac_name(rec: &[u8], out: &mut [u64; 3]) -> u32
    ensures { Replied (name_reply (name_of rec.now)) result out.old out.new }
{
    reply::reply_name(symbol::name::name(rec), out)
}

/// The entry k of a register list, from 0 on: the register, where its name starts, how long it is.
pub fn mitrelilac_register_entry(rec: &[u8], k: usize, out: &mut [u64; 3]) -> u32
    ensures { Replied (entry_reply (register_entry rec.now k)) result out.old out.new }
{
    reply::reply_entry(symbol::register_entry::register_entry(rec, k), out)
}

/// The instruction at a position in the annotations of an inline site: 1, its code, its operands, the next position; 0 alone where they
/// are done.
#[tactic(auto, using(crate::proofs::Exported::call_moves_on))]
pub fn mitrelilac_annotation(annotations: &[u8], position: usize, out: &mut [u64; 5]) -> u32
    ensures replied { Replied (annotation_reply (annotation annotations.now position)) result out.old out.new }
    ensures moves_on { CallMovesOn annotations.now position (call result out.new) }
{
    reply::annotation::reply_annotation(annotations::annotation(annotations, position), out)
}

/// The nesting check from a start: records read and their bytes, fillers passed over and theirs, openers, deepest nesting.
#[tactic(auto, using(crate::proofs::Exported::sums_up))]
pub fn mitrelilac_check(stream: &[u8], start: usize, out: &mut [u64; 6]) -> u32
    ensures replied { Replied (check_reply (check_of stream.now start)) result out.old out.new }
    ensures sums_up { SumsUp stream.now start (call result out.new) }
{
    reply::reply_check(check_nesting::check(stream, start), out)
}

/// The scopes that enclose the record at i, by steps from a start: the number of records read, how many scopes there are, and 64 places
/// that list them, the outermost first, 0 behind them.
pub fn mitrelilac_walk(stream: &[u8], start: usize, i: usize, out: &mut [u64; 66]) -> u32
    ensures { Replied (finding_reply (walk_of stream.now start i)) result out.old out.new }
{
    reply::reply_chain(walk::walk(stream, start, i), out)
}

/// As walking, but scopes that close before i are jumped over.
pub fn mitrelilac_jump(stream: &[u8], start: usize, i: usize, out: &mut [u64; 66]) -> u32
    ensures { Replied (finding_reply (jump_of stream.now start i)) result out.old out.new }
{
    reply::reply_chain(jump::jump(stream, start, i), out)
}

/// The scopes that enclose the opener at i, by parent fields: the number of links, then as walking, but the innermost first.
pub fn mitrelilac_climb(stream: &[u8], i: usize, out: &mut [u64; 66]) -> u32
    ensures { Replied (finding_reply (climb_of stream.now i)) result out.old out.new }
{
    reply::reply_chain(climb::climb(stream, i), out)
}

/// The stream written anew without fillers, save those before the first record kept, into a lent buffer: the length written.
pub fn mitrelilac_squeeze(stream: &[u8], start: usize, buffer: &mut [u8], out: &mut [u64; 2]) -> u32
    ensures replied { Replied (squeeze_reply (squeeze_of stream.now start (length buffer.old))) result out.old out.new }
    ensures buffer { buffer.new ≡ buffer_by (squeeze_of stream.now start (length buffer.old)) (squeezed stream.now start) buffer.old }
    ensures squeezes { CallSqueezes stream.now start (call result out.new) buffer.new }
{
    reply::reply_squeeze(squeezing::squeeze(stream, start, buffer), out)
}

/// What the squeeze would give: the length, how many fillers it would drop, and where the record at i would begin.
pub fn mitrelilac_preview(stream: &[u8], start: usize, i: usize, out: &mut [u64; 3]) -> u32
    ensures replied { Replied (preview_reply (preview_of stream.now start i)) result out.old out.new }
    ensures foretells { CallForetells stream.now start i (call result out.new) }
{
    reply::reply_preview(squeezing::preview(stream, start, i), out)
}
