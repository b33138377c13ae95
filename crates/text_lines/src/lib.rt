// Lines of text, into an output that the caller lends: a word, and numbers in decimal digits, each behind a single space.
#![tactic(auto)]

ghost use Rattle.std.specs.Prelude.{◌+◌, ◌≤◌, length};
ghost use Rattle.format.specs.Listing.{spaced, line};
ghost use Rattle.text_lines.specs.Stored.{Puts, PutsIn, line_room};

use itoa::Buffer;

// Text at the front of a lent output: the first `len` bytes.
#[derive(Drop)]
pub struct Text<'a> {
    pub out: &'a mut [u8],
    pub len: usize,
}

impl Text<'_> {
    // Adds the bytes of a word.
    fn put_word(&mut self, word: &[u8])
        requires { self.old.len + length word.now ≤ length self.old.out.now }
        ensures { Puts self.old word.now self.new }
    {
        let end = self.len + word.len();
        self.out[self.len..end].copy_from_slice(word);
        self.len = end;
    }

    // Adds a number behind a single space.
    fn put_number(&mut self, n: u32)
        requires { self.old.len + 11 ≤ length self.old.out.now }
        ensures { PutsIn 11 self.old (spaced n) self.new }
    {
        self.put_word(b" ");
        self.put_word(Buffer::new().format(n).as_bytes());
    }

    // Adds a line: a word, its numbers and a newline.
    pub fn put_line(&mut self, word: &[u8], numbers: &[u32])
        requires { self.old.len + line_room word.now numbers.now ≤ length self.old.out.now }
        ensures { PutsIn (line_room word.now numbers.now) self.old (line word.now numbers.now) self.new }
    {
        self.put_word(word);
        for n in numbers {
            self.put_number(*n);
        }
        self.put_word(b"\n");
    }
}
