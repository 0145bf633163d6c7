// The flags as KBDRIS and KBDMIS show them, the interrupt line, and IRQST.
#![tactic(auto)]

ghost use Rattle.std.specs.Prelude.{◌≡◌, ◌≤◌, ◌+◌};
ghost use Rattle.words.specs.Words.{without};
ghost use Rattle.flags.specs.Flags.{irqst, irqst_of, line, mis, ris, weigh};

use state::Module;

// A flag's weight if it is set, else 0.
fn weigh(flag: bool, weight: u8) -> u8
    ensures { (result ≡ weigh flag weight) × (result ≤ weight) }
{
    u8::from(flag) * weight
}

// Four flags as the bits 3 to 0 of a byte.
fn byte(relint: bool, revtint: bool, rklint: bool, rsint: bool) -> u8
    ensures { result ≡ weigh relint 8 + weigh revtint 4 + weigh rklint 2 + weigh rsint 1 }
{
    weigh(relint, 8) + weigh(revtint, 4) + weigh(rklint, 2) + weigh(rsint, 1)
}

// A flag, cleared if a bit of a byte is 1.
pub fn cleared(flag: bool, bit: u8, byte: u8) -> bool
    requires { bit ≤ 7 }
    ensures { result ≡ without bit flag byte }
{
    flag && (byte >> bit) % 2 == 0
}

// What KBDRIS reads.
pub fn ris(m: &Module) -> u8
    ensures { result ≡ ris m.now }
{
    byte(m.relint, 0 < m.count, m.rklint, m.rsint)
}

// What KBDMIS reads.
pub fn mis(m: &Module) -> u8
    ensures { result ≡ mis m.now }
{
    byte(
        cleared(m.relint, 3, m.mask),
        cleared(0 < m.count, 2, m.mask),
        cleared(m.rklint, 1, m.mask),
        cleared(m.rsint, 0, m.mask),
    )
}

// Is the interrupt line asserted?
pub fn line(m: &Module) -> bool
    ensures { result ≡ line m.now }
{
    m.porirq || mis(m) != 0 || m.pins.is_raised()
}

// What IRQST reads, by PORIRQ, KBDMIS, and whether an enabled edge of a pin is pending.
pub fn irqst_of(porirq: bool, mis: u8, raised: bool) -> u8
    ensures { result ≡ irqst_of porirq mis raised }
{
    weigh(porirq, 128) + weigh(mis != 0, 64) + weigh(raised, 1)
}

// What IRQST reads.
pub fn irqst(m: &Module) -> u8
    ensures { result ≡ irqst m.now }
{
    irqst_of(m.porirq, mis(m), m.pins.is_raised())
}
