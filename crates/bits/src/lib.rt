// Bit fields, the highest first: a word read and written so many bits at a time, at every width by shift and mask.
#![tactic(auto)]

ghost use Rattle.std.specs.Prelude.{◌≡◌, ◌-◌, ◌^◌, ◌≤◌};
ghost use Rattle.bits.specs.Words.{bits_of, with_bits, read_bits, write_bits};

// A word of which the `left` lowest bits are not read yet.
#[derive(Clone, Copy)]
pub struct BitReader {
    pub word: u64,
    pub left: u32,
}

// A word whose `used` lowest bits are written.
#[derive(Clone, Copy)]
pub struct BitWriter {
    pub word: u64,
    pub used: u32,
}

// The mask of n bits.
fn mask(n: u32) -> u64
    requires { n ≤ 32 }
    ensures { result ≡ 2 ^ n - 1 }
{
    (1 << n) - 1
}

// The highest n of the `left` lowest bits of the word: every field is read here.
pub fn take_bits(word: u64, left: u32, n: u32) -> u32
    requires { (n ≤ 32) × (n ≤ left) × (left ≤ 64) }
    ensures { result ≡ bits_of word left n }
{
    let below = left - n;
    if below == 64 {
        return 0;
    }
    ((word >> below) & mask(n)) as u32
}

// The word moved up by n bits, with the n lowest bits of the value below it: every field is written here.
pub fn put_bits(word: u64, value: u32, n: u32) -> u64
    requires { n ≤ 32 }
    ensures { result ≡ with_bits word value n }
{
    (word << n) | (u64::from(value) & mask(n))
}

impl BitReader {
    // A reader of the `width` lowest bits of the word.
    pub fn new(word: u64, width: u32) -> BitReader
        ensures { (result.word ≡ word) × (result.left ≡ width) }
    {
        BitReader { word, left: width }
    }

    // The next n bits, at most 32, as a number, and the reader behind them; or nothing.
    pub fn read_bits(self, n: u32) -> Option<(u32, BitReader)>
        ensures { result ≡ read_bits self n }
    {
        if n > 32 || self.left < n || self.left > 64 {
            return None;
        }
        let value = take_bits(self.word, self.left, n);
        let rest = BitReader {
            left: self.left - n,
            ..self
        };
        Some((value, rest))
    }
}

impl BitWriter {
    // A writer of an empty word.
    pub fn new() -> BitWriter
        ensures { (result.word ≡ 0) × (result.used ≡ 0) }
    {
        BitWriter { word: 0, used: 0 }
    }

    // The writer with the n lowest bits of the value, at most 32, below those already written; or nothing, where the word has no room.
    pub fn write_bits(self, value: u32, n: u32) -> Option<BitWriter>
        ensures { result ≡ write_bits self value n }
    {
        if n > 32 || self.used > 64 || self.used + n > 64 {
            return None;
        }
        Some(BitWriter {
            word: put_bits(self.word, value, n),
            used: self.used + n,
        })
    }
}
