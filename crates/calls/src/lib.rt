// The eight calls, and looks handed over in blocks, by value: the module is passed and handed back. Each is a thin form over its lent one.
#![tactic(auto)]

pub mod lent;

ghost use Rattle.std.specs.Prelude.{◌≡◌, length};
ghost use Rattle.calls.specs.Calls.{reset_call, look_call, write_call, read_call, read_buffer, held_call, interrupt_call, pins_call, drive_call};
ghost use Rattle.calls.specs.Blocks.{looks_call};

use keys::{Col, Row};
use lent::Levels;
use state::Module;

// kept: document 01 names calls that are passed the module and hand it back with a number, so the four structs and the thin forms stay beside the lent calls.

// What reset, look, write and read hand back; after a declined call the module is as it was given, but that an access declined by ASLEEP has woken it.
#[repr(C)]
#[derive(Clone, Copy)]
pub struct Done {
    pub after: Module,
    pub number: u8,
}

// What a question hands back; the answer of a declined one is no.
#[derive(Clone, Copy)]
pub struct Answered {
    pub after: Module,
    pub number: u8,
    pub yes: bool,
}

// What a block of looks hands back: how many looks were done, and the module that they left.
#[derive(Clone, Copy)]
pub struct Block {
    pub after: Module,
    pub done: usize,
    pub number: u8,
}

// What the question what is driven hands back, bit i for pin i; the level of a pin that isn't driven is 0.
#[derive(Clone, Copy)]
pub struct Driven {
    pub after: Module,
    pub number: u8,
    pub driven: u32,
    pub level: u32,
}

// Reset: the state after reset, whatever was before.
pub fn reset() -> Done
    ensures { result ≡ reset_call }
{
    Done {
        after: state::fresh(),
        number: numbers::DONE,
    }
}

// One look: one set of contact samples, one a row.
pub fn look(m: Module, samples: &[u16]) -> Done
    ensures { result ≡ look_call m samples.now }
{
    let mut after = m;
    let number = numbers::told(lent::look(&mut after, samples));
    Done { after, number }
}

// Several looks, eight samples each: what single looks give, in order, up to the first that is declined.
pub fn looks(m: Module, samples: &[u16]) -> Block
    ensures { result ≡ looks_call m samples.now }
{
    let mut after = m;
    let looks = lent::looks(&mut after, samples);
    Block {
        after,
        done: looks.done,
        number: numbers::told(looks.outcome),
    }
}

// A write access: bytes to the registers from a first address on. Of a panel that sleeps it is declined, and wakes it.
pub fn write(m: Module, first: u8, bytes: &[u8]) -> Done
    ensures { result ≡ write_call m first bytes.now }
{
    let mut after = m;
    let number = numbers::told(lent::write(&mut after, first, bytes));
    Done { after, number }
}

// A read access: the buffer is filled from the registers from a first address on. Of a panel that sleeps it is declined, and wakes it.
pub fn read(m: Module, first: u8, out: &mut [u8]) -> Done
    ensures { (result ≡ read_call m first (length out.old)) × (out.new ≡ read_buffer m first out.old) }
{
    let mut after = m;
    let number = numbers::told(lent::read(&mut after, first, out));
    Done { after, number }
}

// Is this key held?
pub fn held(m: Module, row: Row, col: Col) -> Answered
    ensures { result ≡ held_call m row.0 col.0 }
{
    let answer = lent::held(&m, row, col);
    Answered {
        after: m,
        number: numbers::told(answer),
        yes: answer.unwrap_or(false),
    }
}

// Is the interrupt line asserted?
pub fn interrupt(m: Module) -> Answered
    ensures { result ≡ interrupt_call m }
{
    let answer = lent::interrupt(&m);
    Answered {
        after: m,
        number: numbers::told(answer),
        yes: answer.unwrap_or(false),
    }
}

// The pins are sampled, bit i for pin i.
pub fn pins(m: Module, samples: u32) -> Done
    ensures { result ≡ pins_call m samples }
{
    let mut after = m;
    let number = numbers::told(lent::pins(&mut after, samples));
    Done { after, number }
}

// Which pins are driven, and to what level?
pub fn drive(m: Module) -> Driven
    ensures { result ≡ drive_call m }
{
    let answer = lent::drive(&m);
    let levels = answer.unwrap_or(Levels::NONE);
    Driven {
        after: m,
        number: numbers::told(answer),
        driven: levels.driven,
        level: levels.level,
    }
}
