// Texts and decimal numbers written into bytes that are lent; and numbers read from a text.
#![tactic(auto)]

ghost use Rattle.std.specs.Prelude.{◌≡◌, ◌+◌, length};
ghost use Rattle.text.specs.Digits.{most_digits, decimal};
ghost use Rattle.text.specs.Text.{word};
ghost use Rattle.text.specs.Writing.{Room, Written, Writes};

use itoa::Buffer;

pub mod parsing; // parsing.rt: the numbers of a text

// Bytes that are filled from the front: what is written next goes to `at`.
// Not a writer for `write!`, which doesn't promise to succeed where there is room.
#[derive(Drop)]
pub struct Writer<'a> {
    out: &'a mut [u8],
    at: usize,
}

impl<'a> Writer<'a> {
    // Writes from the start of the bytes.
    pub fn new(out: &'a mut [u8]) -> Self
        ensures same_bytes { result.out.ghost_name ≡ out.entry.ghost_name }
        ensures nothing { (result.out.now ≡ out.old) × (result.at ≡ 0) }
    {
        Self { out, at: 0 }
    }

    // How many bytes are written.
    pub fn written(&self) -> usize
        ensures { result ≡ self.now.at }
    {
        self.at
    }

    // Writes a text.
    pub fn put_text(&mut self, text: &[u8])
        requires { Room self.old (length text.now) }
        ensures { Written self.old text.now self.new }
    {
        let next = self.at + text.len();
        self.out[self.at..next].copy_from_slice(text);
        self.at = next;
    }

    // Writes a number in decimal.
    pub fn put_number(&mut self, n: u32)
        requires { Room self.old most_digits }
        ensures { Writes self.old (decimal n) most_digits self.new }
    {
        let mut buffer = Buffer::new();
        let digits = buffer.format(n).as_bytes();
        self.put_text(digits);
    }

    // Writes a word and a number behind it.
    pub fn put_word(&mut self, text: &[u8], n: u32)
        requires { Room self.old (length text.now + most_digits) }
        ensures { Writes self.old (word text.now n) (length text.now + most_digits) self.new }
    {
        self.put_text(text);
        self.put_number(n);
    }
}
