// 64-bit words, the form in which answers leave the library: values as words, and words stored where the caller lends room.
//
// A number of fewer bits, and a yes or no, is `x as u64`.
#![tactic(auto, unfolding(crate::specs::Written::written))]

ghost use Rattle.std.specs.Prelude.{◌≡◌, ◌≤◌, ℤ, length};
ghost use Rattle.words.specs.Word.{bits, signed_word};
ghost use Rattle.words.specs.Written.{written};

/// A signed number in two's complement, whatever its width.
pub fn signed_word<T: Into<i64>>(x: T) -> u64
    ensures { (wide : ℤ) × T.converts x wide × (result ≡ signed_word wide) }
{
    let wide: i64 = x.into();
    wide.cast_unsigned()
}

/// A bit for each flag, the lowest first.
pub fn bits(flags: &[bool]) -> u64
    requires { length flags.now ≤ 64 }
    ensures { result ≡ bits flags.now }
{
    flags
        .iter()
        .rev()
        .fold(0, |high, low| high << 1 | u64::from(*low))
}

/// Stores the words from place 0 on. The places behind them stay as they were.
#[inline(always)]
pub fn put<const N: usize>(out: &mut [u64], words: [u64; N])
    requires { N ≤ length out.old }
    ensures { out.new ≡ written words.entry out.old }
{
    out[..N].copy_from_slice(&words);
}
