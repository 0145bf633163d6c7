// The page: a part of an answer that is to be written out.
ghost use Rattle.std.specs.Prelude.{◌≡◌, ◌≤◌, ◌<◌, ◌+◌, ◌*◌, length};
ghost use Rattle.text.specs.Pages.{glyph, hexadecimal, listed, put, two_digits, wrote};
ghost use Rattle.text.specs.Digits.{last_digits, decimal};

// The bytes, of which those before a place are used. What goes on the page has room there: nothing is dropped.
// kept: no heap: the page is a fixed list with its length, as the definitions `put` and `wrote` tell it.
#[derive(Clone, Copy)]
pub struct Page {
    pub bytes: [u8; 256],
    pub at: usize,
    // could all that has left the page be written out?
    pub ok: bool,
}

// A page with nothing on it.
pub fn empty() -> Page
    ensures { result.at ≡ 0 }
{
    Page {
        bytes: [0; 256],
        at: 0,
        ok: true,
    }
}

// A digit of base 16, in upper case.
// kept: the theorems of a page's text are about this digit and those below; the library's are characters, to be made bytes again
fn glyph(digit: u8) -> u8
    ensures { result ≡ glyph digit }
{
    match digit % 16 {
        low @ 0..=9 => low + 48,
        high => high + 55,
    }
}

impl Page {
    // A byte goes on the page.
    pub fn put(&mut self, byte: u8)
        requires { self.old.at < 256 }
        ensures { (self.new ≡ put self.old byte) × (self.new.at ≡ self.old.at + 1) }
    {
        self.bytes[self.at] = byte;
        self.at += 1;
    }

    // A text goes on the page.
    pub fn text(&mut self, words: &[u8])
        requires { self.old.at + length words.now ≤ 256 }
        ensures { (self.new ≡ wrote self.old words.now) × (self.new.at ≡ self.old.at + length words.now) }
    {
        for byte in words {
            self.put(*byte);
        }
    }

    // A digit of base 16 goes on the page.
    fn digit(&mut self, value: u8)
        requires { self.old.at < 256 }
        ensures { (self.new ≡ put self.old (glyph value)) × (self.new.at ≡ self.old.at + 1) }
    {
        self.put(glyph(value));
    }

    // A byte's two digits of base 16 go on the page.
    pub fn hex(&mut self, byte: u8)
        requires { self.old.at + 2 ≤ 256 }
        ensures { (self.new ≡ wrote self.old (two_digits byte)) × (self.new.at ≡ self.old.at + 2) }
    {
        self.digit(byte / 16);
        self.digit(byte % 16);
    }

    // A number's digits in base 16 go on the page, as many as it has.
    pub fn hexadecimal(&mut self, number: u16)
        requires { self.old.at + 4 ≤ 256 }
        ensures { (self.new ≡ wrote self.old (hexadecimal number)) × (self.new.at ≤ self.old.at + 4) }
    {
        let [high, low] = number.to_be_bytes();
        if number < 16 {
            self.digit(low);
        } else if number < 256 {
            self.hex(low);
        } else if number < 4096 {
            self.digit(high);
            self.hex(low);
        } else {
            self.hex(high);
            self.hex(low);
        }
    }

    // Bytes go on the page, each behind a blank.
    pub fn listed(&mut self, bytes: &[u8])
        requires { self.old.at + length bytes.now * 3 ≤ 256 }
        ensures { (self.new ≡ wrote self.old (listed bytes.now)) × (self.new.at ≡ self.old.at + length bytes.now * 3) }
    {
        for byte in bytes {
            self.put(b' ');
            self.hex(*byte);
        }
    }

    // The last digits of a number in base 10 go on the page, so many or all.
    // kept: as `glyph`; and the definition `last_digits` is this rule.
    fn last_digits(&mut self, number: u32, most: u8)
        requires { self.old.at + most ≤ 256 }
        ensures { (self.new ≡ wrote self.old (last_digits most number)) × (self.new.at ≤ self.old.at + most) }
    {
        if most < 1 {
            return;
        }
        if 10 <= number {
            self.last_digits(number / 10, most - 1);
        }
        self.put((number % 10) as u8 + 48);
    }

    // A number's digits in base 10 go on the page, as many as it has.
    pub fn decimal(&mut self, number: u32)
        requires { self.old.at + 10 ≤ 256 }
        ensures { (self.new ≡ wrote self.old (decimal number)) × (self.new.at ≤ self.old.at + 10) }
    {
        self.last_digits(number, 10);
    }
}
