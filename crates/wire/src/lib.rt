// Between a two-wire bus and the module: a transfer of the host's is one whole access, made at its stop, of the bytes that were really sent.
#![tactic(auto)]

ghost use Rattle.std.specs.Prelude.{◌≤◌, ◌≡◌, true, [], length};
ghost use Rattle.numbers.specs.Refusals.{told};
ghost use Rattle.registers.specs.declared.Access.TheVariants as way;
ghost use Rattle.registers.specs.Runs.{run_allowed};
ghost use Rattle.calls.specs.Calls.{access_number};
ghost use Rattle.wire.specs.Wire.{longest, shared, opened, idle, agreed, begin_read, begin_write, take_byte, has_more, next_byte, counted, stop, drop_open};

use numbers::Refusal;
use registers::Access;
use state::Module;

// The room for a transfer's bytes: one more than an access may carry, so that too many are seen as such.
pub const ROOM: usize = 33;

// No transfer is open.
pub const IDLES: u8 = 0;

// The host writes, and its next byte is the address.
pub const NAMES: u8 = 1;

// The host writes, and its bytes are collected.
pub const WRITES: u8 = 2;

// The host reads, and its bytes are made ahead.
pub const READS: u8 = 3;

// The host writes and is declined: its next byte still names the address, and no other is taken.
pub const REFUSES: u8 = 4;

// What a bus reads as that nobody drives.
pub const NOTHING: u8 = 0xFF;

// The transfer that is open, if one is. All zeros are a wire with none.
// kept: the C interface: bytes with their count beside
#[repr(C)]
#[derive(Clone, Copy)]
pub struct Wire {
    // READS: the bytes made ahead; WRITES: those collected
    pub bytes: [u8; ROOM],
    // how many they are
    pub count: u8,
    // READS: how many of them were handed to the bus
    pub given: u8,
    // the address that the host named last
    pub first: u8,
    // IDLES, NAMES, WRITES, READS or REFUSES; kept: the C interface, whose memory may hold any byte here
    pub doing: u8,
}

// How many bytes a read from this address can have.
pub fn longest(first: u16) -> usize
    ensures { (result ≡ longest first) × (result ≤ 32) }
{
    let mut address = first;
    for n in 0..32 {
        if !registers::is_allowed(Access::Read, registers::register_at(address)) {
            return n;
        }
        address = registers::next_address(address);
    }
    32
}

// How many bytes two lists of one length have in common, from the first on.
fn shared(a: &[u8], b: &[u8]) -> usize
    requires { length a.now ≡ length b.now }
    ensures { (result ≡ shared a.now b.now) × (result ≤ length a.now) }
{
    a.iter()
        .zip(b)
        .position(|(x, y)| *x != *y)
        .unwrap_or(a.len())
}

// No transfer is open any more; the address stays named.
fn close(w: &mut Wire)
    ensures { w.new ≡ idle w.old }
{
    w.count = 0;
    w.given = 0;
    w.doing = IDLES;
}

// A transfer is opened that has no bytes yet; the address stays named.
fn open(w: &mut Wire, doing: u8)
    ensures { w.new ≡ opened w.old doing [] }
{
    close(w);
    w.bytes = [0; ROOM];
    w.doing = doing;
}

// Why an access is declined, whatever it asks for.
fn of_access(m: &Module) -> Result<(), Refusal>
    ensures { told result ≡ access_number m.now [] }
{
    if !sound::is_sound(m) {
        return Err(Refusal::Unsound);
    }
    if m.asleep {
        return Err(Refusal::Asleep);
    }
    Ok(())
}

// The host begins a read at the address that it named: all that it could give is made ahead.
pub fn begin_read(m: &Module, w: &mut Wire) -> Result<(), Refusal>
    ensures { (told result ≡ (begin_read m.now w.old).number) × (w.new ≡ (begin_read m.now w.old).wire) }
{
    open(w, READS);
    of_access(m)?;
    let first = u16::from(w.first);
    let n = longest(first);
    if n < 1 {
        return Err(Refusal::NotAllowed);
    }
    access::peek(m, first, &mut w.bytes[..n]);
    w.count = n as u8;
    Ok(())
}

// The host begins a write: its first byte is to come, and is the address.
pub fn begin_write(m: &Module, w: &mut Wire) -> Result<(), Refusal>
    ensures { (told result ≡ (begin_write m.now w.old).number) × (w.new ≡ (begin_write m.now w.old).wire) }
{
    open(w, REFUSES);
    of_access(m)?;
    w.doing = NAMES;
    Ok(())
}

// A byte came from the host: the address, or one to be written. Is it taken?
pub fn take_byte(w: &mut Wire, byte: u8) -> bool
    ensures { (result ≡ (take_byte w.old byte).yes) × (w.new ≡ (take_byte w.old byte).wire) }
{
    match w.doing {
        NAMES => {
            w.first = byte;
            w.doing = WRITES;
            true
        }
        REFUSES => {
            w.first = byte;
            w.doing = IDLES;
            false
        }
        WRITES if w.count < 33 => {
            w.bytes[w.count as usize] = byte;
            w.count += 1;
            true
        }
        _ => false,
    }
}

// Is there a byte for the bus: one that was made ahead, and not handed over yet?
fn has_more(w: &Wire) -> bool
    ensures { result ≡ has_more w.now }
{
    w.doing == READS && w.given < w.count && w.given < 33
}

// The bus asks for a byte: the next of those made ahead, or NOTHING. No code is taken.
pub fn next_byte(w: &mut Wire) -> u8
    ensures { (result ≡ (next_byte w.old).byte) × (w.new ≡ (next_byte w.old).wire) }
{
    if !has_more(w) {
        return NOTHING;
    }
    let byte = w.bytes[w.given as usize];
    w.given += 1;
    byte
}

// How many of these bytes a read of the module would give, from the first on.
fn agreed(m: &Module, first: u16, sent: &[u8]) -> usize
    requires { (length sent.now ≤ 32) × (run_allowed way.Read first (length sent.now) ≡ true) }
    ensures { (result ≡ agreed m.now first sent.now) × (result ≤ length sent.now) }
{
    let n = sent.len();
    // kept: no heap
    let mut again = [0u8; ROOM];
    access::peek(m, first, &mut again[..n]);
    shared(sent, &again[..n])
}

// How many bytes the access has that a transfer comes to, so many bytes of a read having been sent. Of a read they are those that the module still has to give.
fn counted(m: &Module, w: &Wire, sent: u32) -> usize
    ensures { (result ≡ counted m.now w.now sent) × (result ≤ 33) }
{
    match w.doing {
        WRITES => (w.count as usize).min(ROOM),
        READS => {
            let first = u16::from(w.first);
            let handed = (w.given as usize).min(longest(first));
            agreed(m, first, &w.bytes[..(sent as usize).min(handed)])
        }
        _ => 0,
    }
}

// The transfer stops, so many bytes of a read having been sent: how many bytes its access has.
pub fn stop(m: &Module, w: &mut Wire, sent: u32) -> u8
    ensures { (result ≡ (stop m.now w.old sent).count) × (w.new ≡ (stop m.now w.old sent).wire) }
{
    let count = counted(m, w, sent);
    close(w);
    count as u8
}

// The transfer is dropped, and no access is made. Was one open?
pub fn drop_open(w: &mut Wire) -> bool
    ensures { (result ≡ (drop_open w.old).yes) × (w.new ≡ (drop_open w.old).wire) }
{
    let was_open = w.doing != IDLES;
    close(w);
    was_open
}
