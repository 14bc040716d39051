// A text that is built piece by piece, in a buffer of a fixed size.
ghost use Rattle.std.specs.Prelude.{◌≡◌, [], ◌∷◌, ◌++◌, ◌+◌, ◌-◌, ◌≤◌, ◌<◌, length, replicate};
ghost use Rattle.text.specs.Digits.{digits_of};
ghost use Rattle.text.specs.Fields.{step_fields};

use std::marker::Model;

// A text of at most `SIZE` bytes. The bytes after it are zeros.
#[derive(Drop)]
pub struct Buffer<const SIZE: usize> {
    bytes: [u8; SIZE],
    length: usize,
}

// A clause sees the text alone.
impl<const SIZE: usize> Model for Buffer<SIZE> {
    ghost use Rattle.std.specs.Prelude.{◌≡◌, List, ℕ, ◌-◌, ◌≤◌, take, drop, replicate};

    ghost Value = { List ℕ };

    ghost view = { λ t. take t.length t.bytes };

    ghost invariant = { λ t. (t.length ≤ SIZE) × (drop t.length t.bytes ≡ replicate (SIZE - t.length) 0) };
}

impl<const SIZE: usize> Buffer<SIZE> {
    // The empty text.
    pub fn new() -> Self
        ensures { result ≡ [] }
    {
        Buffer {
            bytes: [0; SIZE],
            length: 0,
        }
    }

    // The text.
    pub fn as_slice(&self) -> &[u8]
        ensures { result.now ≡ self.now }
    {
        &self.bytes[..self.length]
    }

    // The text, and zeros after it.
    pub fn padded(&self) -> [u8; SIZE]
        ensures { result ≡ self.now ++ replicate (SIZE - length self.now) 0 }
    {
        self.bytes
    }

    // Appends a byte.
    fn push(&mut self, byte: u8)
        requires { length self.old < SIZE }
        ensures { self.new ≡ self.old ++ (byte ∷ []) }
    {
        self.bytes[self.length] = byte;
        self.length += 1;
    }

    // Appends a text.
    pub fn extend_from_slice(&mut self, text: &[u8])
        requires { length self.old + length text.now ≤ SIZE }
        ensures { self.new ≡ self.old ++ text.now }
    {
        let end = self.length + text.len();
        let bytes = &mut self.bytes[..];
        bytes[self.length..end].copy_from_slice(text);
        self.length = end;
    }

    // Appends a number below 100 in decimal, and the byte that ends its field.
    pub fn push_field(&mut self, number: u8, stop: u8)
        requires { (number < 100) × (length self.old + 3 ≤ SIZE) }
        ensures { self.new ≡ self.old ++ (digits_of number ++ (stop ∷ [])) }
    {
        if number >= 10 {
            self.push(b'0' + number / 10);
        }
        self.push(b'0' + number % 10);
        self.push(stop);
    }

    // Appends the three fields of a step, row, set and number, and the byte that ends the last.
    pub fn push_step(&mut self, row: u8, kind: u8, number: u8, stop: u8)
        requires { (row < 100) × (number < 100) × (length self.old + 8 ≤ SIZE) }
        ensures { self.new ≡ self.old ++ step_fields row kind number stop }
    {
        self.push_field(row, b',');
        self.push(if kind == 0 { b'R' } else { b'D' });
        self.push(b',');
        self.push_field(number, stop);
    }
}
