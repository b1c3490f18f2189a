// A line under way: a lent buffer, and the place of the next byte in it. A byte past the buffer's end is left out.
ghost use Rattle.std.specs.Prelude.{◌≡◌, [], ◌∷◌};
ghost use Rattle.transcript.specs.Text.{decimal};
ghost use Rattle.transcript.specs.Writer.{written};

use crate::text;

#[derive(Drop)]
pub struct Line<'a> {
    out: &'a mut [u8],
    at: usize,
}

impl<'a> Line<'a> {
    // A line from a place of the buffer on.
    pub fn new(out: &'a mut [u8], at: usize) -> Line<'a>
        ensures starts { result.at ≡ at }
        ensures holds { result.out.now ≡ out.old }
        ensures same_reference { result.out.ghost_name ≡ out.entry.ghost_name }
    {
        Line { out, at }
    }

    // The place after what was written.
    pub fn end(&self) -> usize
        ensures { result ≡ self.now.at }
    {
        self.at
    }

    pub fn byte(&mut self, b: u8)
        ensures { self.new ≡ written self.old (b ∷ []) }
    {
        if self.at < self.out.len() {
            self.out[self.at] = b;
            self.at += 1;
        }
    }

    pub fn word(&mut self, w: &[u8])
        ensures { self.new ≡ written self.old w.now }
    {
        for &b in w {
            self.byte(b);
        }
    }

    pub fn figure(&mut self, x: u64)
        ensures { self.new ≡ written self.old (decimal x) }
    {
        let mut digits = [0; 20];
        let end = text::put_u64(&mut digits, 0, x);
        self.word(&digits[..end]);
    }
}
