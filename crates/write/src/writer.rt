// A writer: a lent buffer and the place in it where the next byte goes.
// Its methods write there, move the place past what they wrote, and leave the rest of the buffer as it was.
// For the crates of this repository, which see to the room: hence each `requires`.
ghost use Rattle.std.specs.Prelude.{◌∷◌, [], ◌++◌, ◌≡◌, ◌+◌, ◌<◌, ◌≤◌, length};
ghost use Rattle.decimal.specs.Decimal.{digit_byte, decimal};
ghost use Rattle.write.specs.Wrote.{Wrote};
ghost use Rattle.write.specs.Writes.{HasRoom, Writes};
ghost use Rattle.write.specs.Field.{field};

#[derive(Drop)]
pub struct Writer<'a> {
    out: &'a mut [u8],
    at: usize,
}

impl<'a> Writer<'a> {
    // At a place of a buffer.
    pub fn new(out: &'a mut [u8], at: usize) -> Writer<'a>
        ensures same_buffer { result.out.ghost_name ≡ out.entry.ghost_name }
        ensures same_bytes { result.out.now ≡ out.old }
        ensures same_place { result.at ≡ at }
    {
        Writer { out, at }
    }

    pub fn byte(&mut self, byte: u8)
        requires { HasRoom self.old 1 }
        ensures { Writes self.old (byte ∷ []) self.new }
    {
        self.out[self.at] = byte;
        self.at += 1;
    }

    pub fn bytes(&mut self, words: &[u8])
        requires { HasRoom self.old (length words.now) }
        ensures { Writes self.old words.now self.new }
    {
        let end = self.at + words.len();
        self.out[self.at..end].copy_from_slice(words);
        self.at = end;
    }

    // n in decimal.
    #[tactic(auto, using(decimal::specs::DecimalLaws::length_one, decimal::specs::DecimalLaws::length_more))]
    pub fn number(&mut self, n: u64)
        requires { HasRoom self.old (length (decimal n)) }
        ensures { Writes self.old (decimal n) self.new }
    {
        if n < 10 {
            return self.byte(digit(n));
        }
        self.number(n / 10);
        self.byte(digit(n % 10));
    }

    // A comma and n.
    #[tactic(auto, unfolding(crate::specs::Field::field))]
    pub fn field(&mut self, n: u64)
        requires { HasRoom self.old (length (field n)) }
        ensures { Writes self.old (field n) self.new }
    {
        self.byte(b',');
        self.number(n);
    }

    // A word, a comma and n.
    pub fn named(&mut self, word: &[u8], n: u64)
        requires { HasRoom self.old (length word.now + length (field n)) }
        ensures { Writes self.old (word.now ++ field n) self.new }
    {
        self.bytes(word);
        self.field(n);
    }

    // Up to where it wrote.
    pub fn end(&self) -> usize
        ensures { result ≡ self.now.at }
    {
        self.at
    }
}

fn digit(d: u64) -> u8
    requires { d < 10 }
    ensures { result ≡ digit_byte d }
{
    b'0' + d as u8
}
