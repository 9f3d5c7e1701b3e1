// What the squeeze program does with a stream that it has read: the squeeze from behind the signature, of streams that a listing takes.
#![tactic(auto, unfolding(squeezing::specs::Squeeze::squeeze_of))]

ghost use Rattle.std.specs.Prelude.{◌≡◌, ◌≤◌, length, IfOk};
ghost use Rattle.listing.specs.Listing.{listed_from};
ghost use Rattle.squeezing.specs.Squeeze.{squeezed, buffer_by};
ghost use Rattle.squeeze_listed.specs.Listed.{squeeze_listed_of};

use common::Refusal;

/// Squeezes a stream into a lent buffer, and answers the length written, which the buffer holds.
pub fn squeeze_listed(s: &[u8], buffer: &mut [u8]) -> Result<usize, Refusal>
    ensures value { result ≡ squeeze_listed_of s.now (length buffer.old) }
    ensures buffer { buffer.new ≡ buffer_by (squeeze_listed_of s.now (length buffer.old)) (squeezed s.now listed_from) buffer.old }
    ensures fits { IfOk result (λ n. n ≤ length buffer.new) }
{
    if listing::MAX_LISTED < s.len() {
        return Err(Refusal::TooLong);
    }
    squeezing::squeeze(s, listing::LISTED_FROM, buffer)
}
