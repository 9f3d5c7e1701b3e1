// An entry of a register list, on demand: pdb keeps a Vec of them.
#![tactic(auto, unfolding(crate::specs::Entry::register_entry, crate::specs::Decode::decode))]

ghost use Rattle.std.specs.Prelude.{◌≡◌};
ghost use Rattle.symbol.specs.Entry.{entry_by, register_entry};

use common::Refusal;
use common::buffer::ParseBuffer;
use constants::kind::raw_kind;
use records::{Decoded, SymbolData};
use registers::entry::{RegisterEntry, parse_entry_at};

/// The entry k of what decode answers.
#[inline(always)]
fn entry_of(decoded: Decoded, s: &[u8], k: usize) -> Result<RegisterEntry, Refusal>
    ensures { result ≡ entry_by s.now k decoded }
{
    let (data, _) = decoded?;
    let SymbolData::MultiRegisterVariable(list) = data else {
        return Err(Refusal::NothingThere);
    };
    if list.count as usize <= k {
        return Err(Refusal::NothingThere);
    }
    let mut buf = ParseBuffer {
        bytes: s,
        pos: list.first,
    };
    parse_entry_at(&mut buf, raw_kind(s), k as u16)
}

/// The entry k of a register list; or decode's refusal, or that the record has no such entry.
pub fn register_entry(s: &[u8], k: usize) -> Result<RegisterEntry, Refusal>
    ensures { result ≡ register_entry s.now k }
{
    decode_to!(s, entry_of, s, k)
}
