// The entries of a register list, which is walked: `parse_entry_at` reads one of them.
ghost use Rattle.std.specs.Prelude.{◌≡◌, OnErr};
ghost use Rattle.common.specs.Buffer.{Reads};
ghost use Rattle.registers.specs.Entries.{entry, skip, entry_at};

use common::Refusal;
use common::buffer::ParseBuffer;
use names::{Part, parse_listed_name};

/// An entry: a register that holds a piece of the variable.
#[derive(Clone, Copy, Debug, PartialEq, Eq)]
pub struct RegisterEntry {
    /// The register.
    pub register: u16,

    /// The name that stands with it.
    pub name: Part,
}

/// Reads an entry, or moves nothing.
fn parse_entry(buf: &mut ParseBuffer, kind: u16) -> Result<RegisterEntry, Refusal>
    ensures reads { Reads (entry kind) buf.old result buf.new }
    ensures stays { OnErr result (buf.new.pos ≡ buf.old.pos) }
{
    let mut ahead = *buf;
    let entry = RegisterEntry {
        register: ahead.parse()?,
        name: parse_listed_name(&mut ahead, kind)?,
    };
    *buf = ahead;
    Ok(entry)
}

/// Passes n entries, or moves nothing: each has to be read, and the first that can't be decides.
pub fn skip_entries(buf: &mut ParseBuffer, kind: u16, n: u16) -> Result<(), Refusal>
    ensures reads { Reads (skip kind n) buf.old result buf.new }
    ensures stays { OnErr result (buf.new.pos ≡ buf.old.pos) }
{
    let mut ahead = *buf;
    for _ in 0..n {
        parse_entry(&mut ahead, kind)?;
    }
    *buf = ahead;
    Ok(())
}

/// Reads the entry k of a list whose first entry is next, or moves nothing.
pub fn parse_entry_at(buf: &mut ParseBuffer, kind: u16, k: u16) -> Result<RegisterEntry, Refusal>
    ensures reads { Reads (entry_at kind k) buf.old result buf.new }
    ensures stays { OnErr result (buf.new.pos ≡ buf.old.pos) }
{
    let mut ahead = *buf;
    skip_entries(&mut ahead, kind, k)?;
    let entry = parse_entry(&mut ahead, kind)?;
    *buf = ahead;
    Ok(entry)
}
