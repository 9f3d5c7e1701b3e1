// Numbers in bytes, the lowest byte first.
#![tactic(auto, unfolding(crate::specs::Bytes::le, crate::specs::Bytes::signed))]

ghost use Rattle.std.specs.Prelude.{◌≡◌, ◌+◌, ◌≤◌, ℕ, length};
ghost use Rattle.common.specs.Bytes.{le, signed};

/// A number that can be read from bytes.
pub trait Number: Copy {
    // How many bytes it takes.
    ghost SIZE: { ℕ };

    // The number that the bytes hold, of what they hold as an unsigned one.
    ghost of: { ℕ → Self };

    /// How many bytes it takes.
    const SIZE: usize;

    /// The number at a position. (By position, without a buffer, for callers that have shown the room.)
    fn at(s: &[u8], at: usize) -> Self
        requires { at + SIZE ≤ length s.now }
        ensures { result ≡ of (le SIZE s.now at) };
}

impl Number for u8 {
    ghost SIZE = { 1 };

    ghost of = { λ x. x };

    const SIZE: usize = 1;

    fn at(s: &[u8], at: usize) -> Self {
        s[at]
    }
}

impl Number for u16 {
    ghost SIZE = { 2 };

    ghost of = { λ x. x };

    const SIZE: usize = 2;

    fn at(s: &[u8], at: usize) -> Self {
        u16::from_le_bytes([s[at], s[at + 1]])
    }
}

impl Number for u32 {
    ghost SIZE = { 4 };

    ghost of = { λ x. x };

    const SIZE: usize = 4;

    fn at(s: &[u8], at: usize) -> Self {
        u32::from_le_bytes([s[at], s[at + 1], s[at + 2], s[at + 3]])
    }
}

impl Number for u64 {
    ghost SIZE = { 8 };

    ghost of = { λ x. x };

    const SIZE: usize = 8;

    fn at(s: &[u8], at: usize) -> Self {
        u64::from_le_bytes([
            s[at],
            s[at + 1],
            s[at + 2],
            s[at + 3],
            s[at + 4],
            s[at + 5],
            s[at + 6],
            s[at + 7],
        ])
    }
}

impl Number for i16 {
    ghost SIZE = { 2 };

    ghost of = { signed 16 };

    const SIZE: usize = 2;

    fn at(s: &[u8], at: usize) -> Self {
        u16::at(s, at).cast_signed()
    }
}

impl Number for i32 {
    ghost SIZE = { 4 };

    ghost of = { signed 32 };

    const SIZE: usize = 4;

    fn at(s: &[u8], at: usize) -> Self {
        u32::at(s, at).cast_signed()
    }
}

impl Number for i64 {
    ghost SIZE = { 8 };

    ghost of = { signed 64 };

    const SIZE: usize = 8;

    fn at(s: &[u8], at: usize) -> Self {
        u64::at(s, at).cast_signed()
    }
}
