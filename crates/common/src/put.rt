// Bytes put in the place of others.
#![tactic(auto, unfolding(crate::specs::Bytes::put))]

ghost use Rattle.std.specs.Prelude.{◌≡◌, ◌+◌, ◌≤◌, length};
ghost use Rattle.common.specs.Bytes.{put, put_u32};

/// Puts bytes in the place of those from a position on.
pub fn put(bytes: &mut [u8], at: usize, xs: &[u8])
    requires { at + length xs.now ≤ length bytes.old }
    ensures { bytes.new ≡ put at xs.now bytes.old }
{
    bytes[at..at + xs.len()].copy_from_slice(xs);
}

/// Puts a number in the place of the four bytes from a position on.
pub fn put_u32(bytes: &mut [u8], at: usize, x: u32)
    requires { at + 4 ≤ length bytes.old }
    ensures { bytes.new ≡ put_u32 at x bytes.old }
{
    put(bytes, at, &x.to_le_bytes());
}
