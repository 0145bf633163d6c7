// Calls made, one by one, and the codes that their reads fetch.
ghost use Rattle.std.specs.Prelude.{◌≤◌};

use crate::session::Session;
use calls::lent;
use carry::call::{Call, Kind};
use keys::NO_CODE;
use numbers::Refusal;
use state::Module;
use text::list::as_bytes;

// How many fetched codes are kept.
const KEPT: usize = 8192;

// There were more.
const MORE: usize = KEPT + 1;

// The address at which codes are fetched.
const EVTCODE: u8 = 0x10;

// The address of the keypad size; a write of it restarts.
const KBDSIZE: u8 = 0x03;

// The bytes of the longest access that is looked at: one more than are accepted.
pub(crate) const BYTES: usize = 33;

// The codes that were fetched since the last restart: the first of them, and how many there were, MORE at most.
// kept: no heap
#[derive(Drop)]
pub(crate) struct Fetched {
    codes: [u8; KEPT],
    count: usize,
}

impl Fetched {
    // No codes.
    pub(crate) fn new() -> Fetched {
        Fetched {
            codes: [0; KEPT],
            count: 0,
        }
    }

    // The codes that are kept.
    pub(crate) fn kept(&self) -> &[u8] {
        &self.codes[..self.count.min(KEPT)]
    }

    // Were there more?
    pub(crate) fn is_more(&self) -> bool {
        KEPT < self.count
    }

    // After a restart no code was fetched.
    pub(crate) fn restart(&mut self) {
        self.count = 0;
    }

    // One byte more was read where codes are fetched.
    fn fetch(&mut self, byte: u8) {
        if byte == NO_CODE {
            return;
        }
        if self.count < KEPT {
            self.codes[self.count] = byte;
            self.count += 1;
        } else {
            self.count = MORE;
        }
    }
}

// The address of an access.
pub(crate) fn address(call: &Call) -> u8 {
    (call.first % 256) as u8
}

// How many bytes of an access are looked at: more than 32 are declined, however many they are.
pub(crate) fn size(call: &Call) -> usize
    ensures { result ≤ 33 }
{
    usize::from(call.count).min(BYTES)
}

// Makes a look. More than eight samples are declined, however many they are.
fn look(panel: &mut Module, call: &Call) -> Result<(), Refusal> {
    let n = usize::from(call.count).min(32);
    lent::look(panel, &call.values[..n])
}

// Makes a write. If it restarts, no code was fetched since.
fn write(s: &mut Session, call: &Call) -> Result<(), Refusal> {
    // kept: no heap
    let mut bytes = [0; BYTES];
    as_bytes(&call.values, &mut bytes);
    let first = address(call);
    let n = size(call);
    lent::write(&mut s.panel, first, &bytes[..n])?;
    if first <= KBDSIZE && usize::from(KBDSIZE - first) < n {
        s.fetched.restart();
    }
    Ok(())
}

// Makes a read. Where codes are fetched, its bytes are.
fn read(s: &mut Session, call: &Call, bytes: &mut [u8; BYTES]) -> Result<(), Refusal> {
    let first = address(call);
    let n = size(call);
    lent::read(&mut s.panel, first, &mut bytes[..n])?;
    if first == EVTCODE {
        for byte in &bytes[..n] {
            s.fetched.fetch(*byte);
        }
    }
    Ok(())
}

// Resets the panel. After it no code was fetched.
pub(crate) fn reset(s: &mut Session) {
    s.panel = calls::reset().after;
    s.fetched.restart();
}

// Makes a call; the bytes of a read go to the buffer.
pub(crate) fn make(s: &mut Session, call: &Call, bytes: &mut [u8; BYTES]) -> Result<(), Refusal> {
    match call.kind() {
        Kind::Look => look(&mut s.panel, call),
        Kind::Write => write(s, call),
        Kind::Read => read(s, call, bytes),
        Kind::Reset => {
            reset(s);
            Ok(())
        }
    }
}
