// The name of a record (pdb's SymbolData::name).
#![tactic(auto, unfolding(crate::specs::Name::name_of, crate::specs::Decode::decode))]

ghost use Rattle.std.specs.Prelude.{◌≡◌};
ghost use Rattle.records.specs.Name.{name_in};
ghost use Rattle.symbol.specs.Name.{answered, name_of};
ghost use Rattle.symbol.specs.Bytes.{IsName};

use common::Refusal;
use names::{Part, as_bytes};
use records::Decoded;

/// The name of what decode answers.
#[inline(always)]
fn named(decoded: Decoded) -> Result<Option<Part>, Refusal>
    ensures { result ≡ answered name_in decoded }
{
    let (data, _) = decoded?;
    Ok(data.name())
}

/// The part of the record that is its name, or none; or decode's refusal.
pub fn name(s: &[u8]) -> Result<Option<Part>, Refusal>
    ensures { result ≡ name_of s.now }
{
    decode_to!(s, named)
}

/// The bytes of the name; the empty part where there is none, or where name refuses.
pub fn name_bytes(s: &[u8]) -> &[u8]
    ensures { IsName s.entry (name_of s.now) result }
{
    match name(s) {
        Ok(Some(part)) => as_bytes(s, part),
        _ => &s[..0],
    }
}
