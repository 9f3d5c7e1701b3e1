// The reply to a step through the annotations of an inline site.
ghost use Rattle.std.specs.Prelude.{◌≡◌};
ghost use Rattle.reply.specs.Reply.{Replied};
ghost use Rattle.reply.specs.Replies.{operand_words, annotation_reply};

use crate::{answer, refuse};
use annotations::BinaryAnnotation;
use common::Refusal;
use words::signed_word;

/// The operands of an instruction, 0 where there is no second one.
fn operand_words(instruction: BinaryAnnotation) -> (u64, u64)
    ensures { result ≡ operand_words instruction }
{
    match instruction {
        BinaryAnnotation::CodeOffset(x) => (x as u64, 0),
        BinaryAnnotation::ChangeCodeOffsetBase(x) => (x as u64, 0),
        BinaryAnnotation::ChangeCodeOffset(x) => (x as u64, 0),
        BinaryAnnotation::ChangeCodeLength(x) => (x as u64, 0),
        BinaryAnnotation::ChangeFile(x) => (x as u64, 0),
        BinaryAnnotation::ChangeLineOffset(z) => (signed_word(z), 0),
        BinaryAnnotation::ChangeLineEndDelta(x) => (x as u64, 0),
        BinaryAnnotation::ChangeRangeKind(x) => (x as u64, 0),
        BinaryAnnotation::ChangeColumnStart(x) => (x as u64, 0),
        BinaryAnnotation::ChangeColumnEndDelta(z) => (signed_word(z), 0),
        BinaryAnnotation::ChangeCodeOffsetAndLineOffset(x, z) => (x as u64, signed_word(z)),
        BinaryAnnotation::ChangeCodeLengthAndCodeOffset(x, y) => (x as u64, y as u64),
        BinaryAnnotation::ChangeColumnEnd(x) => (x as u64, 0),
    }
}

/// 1, the code of the instruction, its operands and the next position; 0 alone where the instructions are done.
pub fn reply_annotation(
    annotation: Result<Option<(BinaryAnnotation, usize)>, Refusal>,
    out: &mut [u64; 5],
) -> u32
    ensures { Replied (annotation_reply annotation) result out.old out.new }
{
    match annotation {
        Ok(Some((instruction, next))) => {
            let (first, second) = operand_words(instruction);
            answer(
                out,
                [1, instruction.code() as u64, first, second, next as u64],
            )
        }
        Ok(None) => answer(out, [0]),
        Err(e) => refuse(out, e),
    }
}
