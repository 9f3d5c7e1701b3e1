// Condition 3 of what C receives, of the exported functions themselves: wherever mitrelilac_check returns 0, the words of mitrelilac_walk,
// mitrelilac_jump and mitrelilac_climb agree. The claim is stated in specs/Exported.antt of crate mitrelilac; nothing calls this function.
// (It is that of crate mitrelilac again: a function that took the four calls would have to require of them what their contracts say.)
ghost use Rattle.check_nesting.specs.Check.{check_of};
ghost use Rattle.walk.specs.Walk.{walk_of};
ghost use Rattle.jump.specs.Jump.{jump_of};
ghost use Rattle.climb.specs.Climb.{climb_of};
ghost use Rattle.reply.specs.Reply.{Replied};
ghost use Rattle.reply.specs.Replies.{check_reply, finding_reply};
ghost use Rattle.mitrelilac.specs.Exported.{call, CallsMeetCondition3};

use mitrelilac::condition3::Returned;

/// Asks the check of a stream from a start, and the three finders of a position in it.
pub fn four_calls(
    stream: &[u8],
    start: usize,
    i: usize,
    checked: &mut [u64; 6],
    walked: &mut [u64; 66],
    jumped: &mut [u64; 66],
    climbed: &mut [u64; 66],
) -> Returned
    ensures checks { Replied (check_reply (check_of stream.now start)) result.check checked.old checked.new }
    ensures walks { Replied (finding_reply (walk_of stream.now start i)) result.walk walked.old walked.new }
    ensures jumps { Replied (finding_reply (jump_of stream.now start i)) result.jump jumped.old jumped.new }
    ensures climbs { Replied (finding_reply (climb_of stream.now i)) result.climb climbed.old climbed.new }
    ensures condition3 { CallsMeetCondition3 stream.now start i result.check (call result.walk walked.new) (call result.jump jumped.new) (call result.climb climbed.new) }
{
    let check = super::mitrelilac_check(stream, start, checked);
    let walk = super::mitrelilac_walk(stream, start, i, walked);
    let jump = super::mitrelilac_jump(stream, start, i, jumped);
    let climb = super::mitrelilac_climb(stream, i, climbed);
    Returned {
        check,
        walk,
        jump,
        climb,
    }
}
