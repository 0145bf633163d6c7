// The calls over a module that is lent: it is altered where it is, and a refusal says why a call is declined.
ghost use Rattle.std.specs.Prelude.{◌/◌, ◌≡◌, true, [], length, eqb};
ghost use Rattle.words.specs.Words.{◌if◌, ◌else◌};
ghost use Rattle.numbers.specs.Numbers.{number_of, sleeping};
ghost use Rattle.numbers.specs.Refusals.{told};
ghost use Rattle.state.specs.Module.{woken};
ghost use Rattle.sound.specs.Sound.{sound};
ghost use Rattle.calls.specs.Calls.{look_call, write_call, read_call, read_buffer, held_call, interrupt_call, pins_call, drive_call, access_number, interrupt_number};
ghost use Rattle.calls.specs.Blocks.{block_lines, singles, looks_call};
ghost use Rattle.calls.specs.Lent.{Lent, Asked, Looked, Told};

use keys::{Col, Row};
use numbers::Refusal;
use pins::What;
use state::Module;

// How many looks of a block were done, and how it went.
#[derive(Clone, Copy)]
pub struct Made {
    pub done: usize,
    pub outcome: Result<(), Refusal>,
}

// Which pins are driven, and to what level, bit i for pin i; the level of a pin that isn't driven is 0.
#[derive(Clone, Copy)]
pub struct Levels {
    pub driven: u32,
    pub level: u32,
}

impl Levels {
    // No pin is driven.
    pub const NONE: Levels = Levels {
        driven: 0,
        level: 0,
    };
}

// The samples of a look.
const SAMPLES: usize = 8;

// Every call but reset is declined for an unsound state, before all else.
fn of_state(m: &Module) -> Result<(), Refusal>
    ensures { told result ≡ interrupt_number m.now }
{
    if sound::is_sound(m) {
        Ok(())
    } else {
        Err(Refusal::Unsound)
    }
}

// An access of a panel that sleeps is declined, whatever it asks for, and wakes it.
fn of_sleep(m: &mut Module) -> Result<(), Refusal>
    ensures { (told result ≡ access_number m.old [])
        × (m.new ≡ (woken m.old if eqb (access_number m.old []) sleeping else m.old)) }
{
    of_state(m)?;
    if m.asleep {
        m.wake();
        return Err(Refusal::Asleep);
    }
    Ok(())
}

// One look: one set of contact samples, one a row.
pub fn look(m: &mut Module, samples: &[u16]) -> Result<(), Refusal>
    ensures { Lent (look_call m.old samples.now) result m.new }
{
    of_state(m)?;
    judge::of_samples(samples)?;
    scan::look(m, samples);
    Ok(())
}

// The single looks of a block, up to the first that is declined, of a sound module. Each leaves it sound.
fn look_by_look(m: &mut Module, samples: &[u16]) -> Made
    requires { sound m.old ≡ true }
    ensures { Looked (singles (length samples.now / 8) m.old samples.now) result m.new }
{
    // a field that is read tells the proof what the struct's types say
    let _bounce = m.bounce;
    for (done, eight) in samples.chunks_exact(SAMPLES).enumerate() {
        if let Err(refusal) = judge::of_samples(eight) {
            return Made {
                done,
                outcome: Err(refusal),
            };
        }
        scan::look(m, eight);
    }
    Made {
        done: samples.len() / SAMPLES,
        outcome: Ok(()),
    }
}

// What a block is declined for before its first look: an unsound state, then samples that are no whole looks.
fn of_block(m: &Module, samples: &[u16]) -> Result<(), Refusal>
    ensures { told result ≡ number_of (block_lines m.now samples.now) }
{
    of_state(m)?;
    if samples.len() % SAMPLES != 0 {
        return Err(Refusal::NotEight);
    }
    Ok(())
}

// Several looks, eight samples each: what single looks give, in order, up to the first that is declined.
pub fn looks(m: &mut Module, samples: &[u16]) -> Made
    ensures { Looked (looks_call m.old samples.now) result m.new }
{
    if let Err(refusal) = of_block(m, samples) {
        return Made {
            done: 0,
            outcome: Err(refusal),
        };
    }
    look_by_look(m, samples)
}

// A write access: bytes to the registers from a first address on. Of a panel that sleeps it is declined, and wakes it.
pub fn write(m: &mut Module, first: u8, bytes: &[u8]) -> Result<(), Refusal>
    ensures { Lent (write_call m.old first bytes.now) result m.new }
{
    of_sleep(m)?;
    let first = u16::from(first);
    judge::of_write(first, bytes)?;
    access::write(m, first, bytes);
    m.wake();
    Ok(())
}

// A read access: the buffer is filled from the registers from a first address on. Of a panel that sleeps it is declined, and wakes it.
pub fn read(m: &mut Module, first: u8, out: &mut [u8]) -> Result<(), Refusal>
    ensures { Lent (read_call m.old first (length out.old)) result m.new × (out.new ≡ read_buffer m.old first out.old) }
{
    of_sleep(m)?;
    let first = u16::from(first);
    judge::of_read(first, out.len())?;
    access::read(m, first, out);
    m.wake();
    Ok(())
}

// Is this key held?
pub fn held(m: &Module, row: Row, col: Col) -> Result<bool, Refusal>
    ensures { Asked (held_call m.now row.0 col.0) result m.now }
{
    of_state(m)?;
    judge::of_key(row, col)?;
    Ok(m.held[keys::key_at(row, col)])
}

// Is the interrupt line asserted?
pub fn interrupt(m: &Module) -> Result<bool, Refusal>
    ensures { Asked (interrupt_call m.now) result m.now }
{
    of_state(m)?;
    Ok(flags::line(m))
}

// The pins are sampled, bit i for pin i.
pub fn pins(m: &mut Module, samples: u32) -> Result<(), Refusal>
    ensures { Lent (pins_call m.old samples) result m.new }
{
    of_state(m)?;
    judge::of_pins(samples)?;
    m.pins.sample(m.size, samples);
    Ok(())
}

// Which pins are driven, and to what level?
pub fn drive(m: &Module) -> Result<Levels, Refusal>
    ensures { Told (drive_call m.now) result m.now }
{
    of_state(m)?;
    Ok(Levels {
        driven: m.pins.word(What::Driven, m.size),
        level: m.pins.word(What::High, m.size),
    })
}
