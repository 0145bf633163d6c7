// The spare pins: the levels that they are driven to, and the pins drawn for a person.
ghost use Rattle.std.specs.Prelude.{◌<◌};
ghost use Rattle.answers.specs.Outputs.{Kept};

use crate::out::Output;
use keys::ROWS;
use pins::{DIR, IE, PINS, What};
use state::Module;

// The sign of a level.
fn digit(high: bool) -> u8 {
    b'0' + u8::from(high)
}

// The level that a pin is driven to; a dash if it isn't driven.
fn level(driven: u32, high: u32, pin: u8) -> u8
    requires { pin < 19 }
{
    if (driven >> pin) % 2 == 1 {
        digit((high >> pin) % 2 == 1)
    } else {
        b'-'
    }
}

// The levels that the pins are driven to, from pin 0 on, as a word behind a blank.
pub fn levels(out: &mut Output, driven: u32, high: u32)
    ensures { Kept out.old out.new }
{
    out.put(b' ');
    for pin in 0..PINS as u8 {
        out.put(level(driven, high, pin));
    }
}

// The mark of a pin that the keypad uses: those of its rows come first, those of its columns behind.
fn keypad(out: &mut Output, pin: u8)
    ensures { Kept out.old out.new }
{
    out.text(if pin < ROWS { b"  r" } else { b"  c" });
}

// The mark of an input: its newest sample; a question mark before the first.
fn input(out: &mut Output, sampled: bool, high: bool)
    ensures { Kept out.old out.new }
{
    if sampled {
        out.text(b" <");
        out.put(digit(high));
    } else {
        out.text(b" <?");
    }
}

// The mark of a pin: of the keypad, an output or an input.
fn part(out: &mut Output, m: &Module, driven: u32, high: u32, pin: u8)
    requires { pin < 19 }
    ensures { Kept out.old out.new }
{
    if pins::is_used(m.size, pin) {
        keypad(out, pin);
    } else if m.pins.bank(DIR, pin) {
        out.text(b" >");
        out.put(level(driven, high, pin));
    } else {
        input(out, m.pins.sampled, m.pins.level[usize::from(pin)]);
    }
}

// The line of what each pin is.
fn parts(out: &mut Output, m: &Module)
    ensures { Kept out.old out.new }
{
    let driven = m.pins.word(What::Driven, m.size);
    let high = m.pins.word(What::High, m.size);
    out.text(b"\nis   ");
    for pin in 0..PINS as u8 {
        part(out, m, driven, high, pin);
    }
}

// The mark of what is so or isn't.
fn flag(out: &mut Output, set: bool)
    ensures { Kept out.old out.new }
{
    out.text(if set { b"  #" } else { b"  ." });
}

// The line of the edges that are pending.
fn edges(out: &mut Output, edge: &[bool; PINS])
    ensures { Kept out.old out.new }
{
    out.text(b"\nedge ");
    for pending in edge {
        flag(out, *pending);
    }
}

// The line of the edges that are enabled.
fn enabled(out: &mut Output, m: &Module)
    ensures { Kept out.old out.new }
{
    out.text(b"\nIE   ");
    for pin in 0..PINS as u8 {
        flag(out, m.pins.bank(IE, pin));
    }
}

// The pins: what each is, with its level or its newest sample; which edges are pending, and which are enabled.
pub fn drawn(out: &mut Output, m: &Module)
    ensures { Kept out.old out.new }
{
    out.text(b"\npin    0  1  2  3  4  5  6  7  8  9 10 11 12 13 14 15 16 17 18");
    parts(out, m);
    edges(out, &m.pins.edge);
    enabled(out, m);
}
