// Text put behind what is written of lent bytes.
#![tactic(auto)]

ghost use Rattle.std.specs.Prelude.{◌≡◌, map, decimal};
ghost use Rattle.io.specs.Digits.{last_digits};
ghost use Rattle.listing.specs.Listing.{shown_byte};
ghost use Rattle.listing.specs.Puts.{HasRoom, Writes};

use super::TEXT_ROOM;

/// Lent bytes, and how many of them are written. (No `Cursor` of std's: its writes can fail, and none does here.)
#[derive(Drop)]
pub struct Text<'a> {
    /// The bytes.
    bytes: &'a mut [u8; TEXT_ROOM],

    /// How many are written.
    len: usize,
}

impl<'a> Text<'a> {
    /// The bytes, of which none is written.
    pub fn new(bytes: &'a mut [u8; TEXT_ROOM]) -> Text<'a>
        ensures same { result.bytes.ghost_name ≡ bytes.entry.ghost_name }
        ensures bytes { result.bytes.now ≡ bytes.old }
        ensures len { result.len ≡ 0 }
    {
        Text { bytes, len: 0 }
    }

    /// How many are written.
    pub fn len(&self) -> usize
        ensures { result ≡ self.now.len }
    {
        self.len
    }

    /// Puts bytes as they are.
    pub fn put(&mut self, text: &[u8])
        requires { HasRoom text.now self.old }
        ensures { Writes text.now self.old self.new }
    {
        let to = self.len + text.len();
        let bytes = &mut *self.bytes;
        bytes[self.len..to].copy_from_slice(text);
        self.len = to;
    }

    /// Puts a name, its bytes as they are shown.
    pub fn put_shown(&mut self, name: &[u8])
        requires { HasRoom name.now self.old }
        ensures { Writes (map shown_byte name.now) self.old self.new }
    {
        let from = self.len;
        self.put(name);
        let bytes = &mut *self.bytes;
        for b in bytes[from..self.len].iter_mut() {
            *b = shown(*b);
        }
    }

    /// Puts a number in decimal.
    pub fn put_decimal(&mut self, n: usize)
        requires { HasRoom (decimal n) self.old }
        ensures { Writes (decimal n) self.old self.new }
    {
        self.put(itoa::Buffer::new().format(n).as_bytes());
    }

    /// Puts a kind as four hexadecimal digits.
    pub fn put_kind(&mut self, kind: u16)
        requires { HasRoom (last_digits 16 4 kind) self.old }
        ensures { Writes (last_digits 16 4 kind) self.old self.new }
    {
        let mut nibbles = [0u8; 16];
        let k = io::hex(kind as u64, 4, &mut nibbles);
        self.put(&nibbles[..k]);
    }
}

/// A byte of a name as it is shown.
fn shown(b: u8) -> u8
    ensures { result ≡ shown_byte b }
{
    match b {
        0x21..=0x7e => b,
        _ => b'?',
    }
}
