// The annotations of an inline site, its line program, read one instruction at a time (pdb's src/symbol/annotations.rs).
#![tactic(auto, unfolding(crate::specs::Annotation::operands))]

pub mod compressed;

ghost use Rattle.std.specs.Prelude.{◌≡◌};
ghost use Rattle.common.specs.Buffer.{Reads};
ghost use Rattle.annotations.specs.Annotation.{operands, annotation, MovesOn, code_of, emits_line_info};

use common::Refusal;
use common::buffer::ParseBuffer;
use compressed::{parse_compressed, signed_operand};

/// An instruction of a line program: it changes what the next line record says, or emits one.
#[derive(Clone, Copy, Debug, PartialEq, Eq)]
pub enum BinaryAnnotation {
    /// Sets the code offset to the given absolute value.
    CodeOffset(u32),

    /// Sets the base for all code offsets to the given absolute value. All following code offsets are relative to this base value.
    ChangeCodeOffsetBase(u32),

    /// **Emitting**. Advances the code offset by the given value.
    ///
    /// How much code the line record covers may be told by a following `ChangeCodeLength`, or by the offset of the next line record.
    ChangeCodeOffset(u32),

    /// Adjusts the code length of the line record that was emitted last, behind which the code offset then is. The code length resets with
    /// every line record.
    ChangeCodeLength(u32),

    /// Sets the file index of following line records.
    ChangeFile(u32),

    /// Advances the line number by the given value.
    ChangeLineOffset(i32),

    /// Sets the number of source lines that following line records cover, 1 where it is not set.
    ChangeLineEndDelta(u32),

    /// Sets the kind of following line records: 1 for a statement, which it is where it is not set, 0 for an expression.
    ChangeRangeKind(u32),

    /// Sets the start column number, 0 for none.
    ChangeColumnStart(u32),

    /// Advances the end column number by the given value.
    ChangeColumnEndDelta(i32),

    /// **Emitting**. Advances the code offset and the line number by the given values.
    ///
    /// How much code the line record covers may be told by a following `ChangeCodeLength`, or by the offset of the next line record.
    ChangeCodeOffsetAndLineOffset(u32, i32),

    /// **Emitting**. Sets the code length and advances the code offset by the given values.
    ///
    /// Mostly one of the last instructions, where no line record follows that would tell the code length.
    ChangeCodeLengthAndCodeOffset(u32, u32),

    /// Sets the end column number.
    ChangeColumnEnd(u32),
}

impl BinaryAnnotation {
    /// Its code.
    pub fn code(self) -> u8
        ensures { result ≡ code_of self }
    {
        match self {
            BinaryAnnotation::CodeOffset(_) => 1,
            BinaryAnnotation::ChangeCodeOffsetBase(_) => 2,
            BinaryAnnotation::ChangeCodeOffset(_) => 3,
            BinaryAnnotation::ChangeCodeLength(_) => 4,
            BinaryAnnotation::ChangeFile(_) => 5,
            BinaryAnnotation::ChangeLineOffset(_) => 6,
            BinaryAnnotation::ChangeLineEndDelta(_) => 7,
            BinaryAnnotation::ChangeRangeKind(_) => 8,
            BinaryAnnotation::ChangeColumnStart(_) => 9,
            BinaryAnnotation::ChangeColumnEndDelta(_) => 10,
            BinaryAnnotation::ChangeCodeOffsetAndLineOffset(_, _) => 11,
            BinaryAnnotation::ChangeCodeLengthAndCodeOffset(_, _) => 12,
            BinaryAnnotation::ChangeColumnEnd(_) => 13,
        }
    }

    /// Whether it emits a line record.
    pub fn emits_line_info(self) -> bool
        ensures { result ≡ emits_line_info self }
    {
        matches!(
            self,
            BinaryAnnotation::ChangeCodeOffset(_)
                | BinaryAnnotation::ChangeCodeOffsetAndLineOffset(_, _)
                | BinaryAnnotation::ChangeCodeLengthAndCodeOffset(_, _)
        )
    }
}

/// Reads the operands of a code. None where the code ends the instructions.
fn parse_operands(buf: &mut ParseBuffer, code: u32) -> Result<Option<BinaryAnnotation>, Refusal>
    ensures { Reads (operands code) buf.old result buf.new }
{
    Ok(Some(match code {
        0 => return Ok(None),
        1 => BinaryAnnotation::CodeOffset(parse_compressed(buf)?),
        2 => BinaryAnnotation::ChangeCodeOffsetBase(parse_compressed(buf)?),
        3 => BinaryAnnotation::ChangeCodeOffset(parse_compressed(buf)?),
        4 => BinaryAnnotation::ChangeCodeLength(parse_compressed(buf)?),
        5 => BinaryAnnotation::ChangeFile(parse_compressed(buf)?),
        6 => BinaryAnnotation::ChangeLineOffset(signed_operand(parse_compressed(buf)?)),
        7 => BinaryAnnotation::ChangeLineEndDelta(parse_compressed(buf)?),
        8 => BinaryAnnotation::ChangeRangeKind(parse_compressed(buf)?),
        9 => BinaryAnnotation::ChangeColumnStart(parse_compressed(buf)?),
        10 => BinaryAnnotation::ChangeColumnEndDelta(signed_operand(parse_compressed(buf)?)),
        11 => {
            let operand = parse_compressed(buf)?;
            BinaryAnnotation::ChangeCodeOffsetAndLineOffset(
                operand % 16,
                signed_operand(operand / 16),
            )
        }
        12 => {
            let length = parse_compressed(buf)?;
            let offset = parse_compressed(buf)?;
            BinaryAnnotation::ChangeCodeLengthAndCodeOffset(length, offset)
        }
        13 => BinaryAnnotation::ChangeColumnEnd(parse_compressed(buf)?),
        _ => return Err(Refusal::UnknownBinaryAnnotation(code)),
    }))
}

/// The next instruction from a position, and the position after it. None at or past the end, and where code 0 ends the instructions.
#[tactic(auto, using(crate::proofs::Instructions::moves_on), unfolding(crate::specs::Annotation::annotation))]
pub fn annotation(
    bytes: &[u8],
    position: usize,
) -> Result<Option<(BinaryAnnotation, usize)>, Refusal>
    ensures answer { result ≡ annotation bytes.now position }
    ensures moves_on { MovesOn bytes.now position result }
{
    if bytes.len() <= position {
        return Ok(None);
    }
    let mut buf = ParseBuffer {
        bytes,
        pos: position,
    };
    let code = parse_compressed(&mut buf)?;
    let instruction = parse_operands(&mut buf, code)?;
    Ok(instruction.map(|x| (x, buf.pos)))
}
