//! Names of up to eight bytes, packed into one number.
ghost use Rattle.std.specs.Prelude.{◌≡◌};
ghost use Rattle.entry.specs.Naming.{glyph, packed, packed_name};

use std::fmt;

/// Eight bytes as one number, the first highest.
fn pack(bytes: [u8; 8]) -> u64
    ensures { result ≡ packed bytes }
{
    u64::from_be_bytes(bytes)
}

/// A text as a name: none if it has more than eight bytes, or a 0 among them. The empty text is 0.
pub fn pack_name(text: &[u8]) -> Option<u64>
    ensures { result ≡ packed_name text.now }
{
    if text.len() > 8 || text.contains(&0) {
        return None;
    }
    let mut bytes = [0; 8];
    bytes[..text.len()].copy_from_slice(text);
    Some(pack(bytes))
}

/// A byte as it is shown: printable ASCII as itself, else a question mark.
fn shown_as(b: u8) -> char
    ensures { result ≡ glyph b }
{
    match b {
        b' '..=b'~' => char::from(b),
        _ => '?',
    }
}

/// A packed name, to be shown as text.
#[derive(Clone, Copy, PartialEq, Eq, Debug)]
pub struct Name(pub u64);

impl fmt::Display for Name {
    fn fmt<W: fmt::Write>(&self, f: &mut fmt::Formatter<W>) -> fmt::Result {
        for b in self.0.to_be_bytes().iter().take_while(|b| **b != 0) {
            f.write_char(shown_as(*b))?;
        }
        Ok(())
    }
}
