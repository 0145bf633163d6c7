// Answers written out in pieces: the page is written out when it has no room for what comes next, and when all that has arrived is answered.
ghost use Rattle.std.specs.Prelude.{◌≡◌, ◌≤◌, ◌<◌, ◌+◌, false};
ghost use Rattle.answers.specs.Outputs.{Kept};

use std::rt::Stdout;
use text::lines::NEWLINE;
use text::page;
use text::page::Page;

// A page, and the standard output that it is written out to.
#[derive(Clone, Copy)]
pub struct Output {
    pub page: Page,
    pub to: Stdout,
}

impl Output {
    // A page with nothing on it, and where it is to be written out.
    pub fn new(to: Stdout) -> Output
        ensures { (result.page.at ≡ 0) × (result.to ≡ to) }
    {
        Output {
            page: page::empty(),
            to,
        }
    }

    // Could all that has left the page be written out?
    pub fn is_ok(&self) -> bool
        ensures { result ≡ self.now.page.ok }
    {
        self.page.ok
    }

    // Writes out what stands on the page, and empties it. More than the page holds is dropped, and counts as not written.
    pub fn flush(&mut self)
        ensures emptied { (self.new.page.at ≡ 0) × (self.new.to ≡ self.old.to) }
        ensures failed { self.old.page.ok ≡ false → self.new.page.ok ≡ false }
        ensures dropped { 256 < self.old.page.at → self.new.page.ok ≡ false }
    {
        let sent = match self.page.bytes.get(..self.page.at) {
            Some(bytes) => self.to.write_all(bytes).is_ok(),
            None => false,
        };
        self.page.ok &= sent;
        self.page.at = 0;
    }

    // Makes room on the page for so many bytes.
    // kept: room is made, and then a piece goes on the page: one writer over a closure that puts the piece there would be no plainer.
    fn room(&mut self, n: usize)
        requires { n ≤ 256 }
        ensures { (self.new.page.at + n ≤ 256) × (self.new.to ≡ self.old.to) }
    {
        if 256 - n < self.page.at {
            self.flush();
        }
    }

    // Writes a byte.
    pub fn put(&mut self, byte: u8)
        ensures { Kept self.old self.new }
    {
        self.room(1);
        self.page.put(byte);
    }

    // Ends the line.
    pub fn end(&mut self)
        ensures { Kept self.old self.new }
    {
        self.put(NEWLINE);
    }

    // Writes a text.
    pub fn text(&mut self, words: &[u8])
        ensures { Kept self.old self.new }
    {
        self.room(0);
        for part in words.chunks(256) {
            self.room(part.len());
            self.page.text(part);
        }
    }

    // Writes bytes, each behind a blank.
    pub fn listed(&mut self, bytes: &[u8])
        ensures { Kept self.old self.new }
    {
        self.room(0);
        for part in bytes.chunks(85) {
            self.room(part.len() * 3);
            self.page.listed(part);
        }
    }

    // Writes samples in base 16, each behind a blank.
    pub fn samples(&mut self, samples: &[u16])
        ensures { Kept self.old self.new }
    {
        self.room(0);
        for sample in samples {
            self.put(b' ');
            self.room(4);
            self.page.hexadecimal(*sample);
        }
    }

    // Writes a name, and a byte in base 16.
    pub fn hex(&mut self, name: &[u8], byte: u8)
        ensures { Kept self.old self.new }
    {
        self.text(name);
        self.room(2);
        self.page.hex(byte);
    }

    // Writes a number in base 10.
    pub fn decimal(&mut self, number: u32)
        ensures { Kept self.old self.new }
    {
        self.room(10);
        self.page.decimal(number);
    }
}
