// The panel drawn for a person.
ghost use Rattle.answers.specs.Outputs.{Kept};

use crate::change::change_of;
use crate::out::Output;
use crate::spare;
use keys::{Col, KEYS, Row, SPECIAL};
use state::{Module, PLACES};

// The line above the keys: five places, and three for each column's label.
const HEAD: [u8; 41] = *b"row    0  1  2  3  4  5  6  7  8  9 10 11";

// The sign of a key: held or open; a sign of its own while its contact reads otherwise and settles.
fn sign(held: bool, settles: bool) -> u8 {
    match (held, settles) {
        (true, false) => b'#',
        (true, true) => b'-',
        (false, false) => b'.',
        (false, true) => b'+',
    }
}

// The sign of the key there; a blank if there is none.
fn sign_at(m: &Module, row: Row, col: Col) -> u8 {
    let key = keys::key_at(row, col);
    if key < KEYS {
        sign(m.held[key], 0 < m.run[key])
    } else {
        b' '
    }
}

// The mark of a key: its sign behind two blanks.
fn mark(out: &mut Output, m: &Module, row: Row, col: Col)
    ensures { Kept out.old out.new }
{
    out.text(&[b' ', b' ', sign_at(m, row, col)]);
}

// The line above the keys, with the labels of the first columns.
fn columns(out: &mut Output, cols: u8)
    ensures { Kept out.old out.new }
{
    let n = 5 + 3 * usize::from(cols).min(12);
    out.text(&HEAD[..n]);
    out.text(b"   SF\n");
}

// The line of a row: its label, its keys, and its special function key apart.
fn keys_of(out: &mut Output, m: &Module, row: u8)
    ensures { Kept out.old out.new }
{
    out.put(b' ');
    out.decimal(u32::from(row));
    out.text(b"   ");
    for col in 0..m.size % 16 {
        mark(out, m, Row(row), Col(col));
    }
    out.text(b"  ");
    mark(out, m, Row(row), Col(SPECIAL));
    out.end();
}

// The keys of the size.
fn grid(out: &mut Output, m: &Module)
    ensures { Kept out.old out.new }
{
    columns(out, m.size % 16);
    for row in 0..m.size / 16 {
        keys_of(out, m, row);
    }
}

// The column of a code.
fn column(out: &mut Output, col: Col)
    ensures { Kept out.old out.new }
{
    if col.0 == SPECIAL {
        out.text(b" SF\n");
    } else {
        out.text(b" col ");
        out.decimal(u32::from(col.0));
        out.end();
    }
}

// What a code tells.
fn name(out: &mut Output, code: u8)
    ensures { Kept out.old out.new }
{
    let change = change_of(code);
    let told: &[u8] = if change.pressed {
        b" press row "
    } else {
        b" release row "
    };
    out.hex(b"    ", code);
    out.text(told);
    out.decimal(u32::from(change.row.0));
    column(out, change.col);
}

// The codes that wait, oldest first, and what they tell.
fn codes(out: &mut Output, m: &Module)
    ensures { Kept out.old out.new }
{
    let waiting = &m.queue[..usize::from(m.count).min(PLACES)];
    out.text(b"waiting:");
    out.listed(waiting);
    out.end();
    for code in waiting {
        name(out, *code);
    }
}

// A name and a flag.
fn flag(out: &mut Output, name: &[u8], set: bool)
    ensures { Kept out.old out.new }
{
    out.text(name);
    out.decimal(u32::from(set));
}

// KBDRIS with its flags.
fn raw(out: &mut Output, m: &Module)
    ensures { Kept out.old out.new }
{
    out.hex(b"KBDRIS ", flags::ris(m));
    flag(out, b": RELINT ", m.relint);
    flag(out, b", REVTINT ", 0 < m.count);
    flag(out, b", RKLINT ", m.rklint);
    flag(out, b", RSINT ", m.rsint);
}

// KBDMIS, and the settings.
fn settings(out: &mut Output, m: &Module)
    ensures { Kept out.old out.new }
{
    out.hex(b"\nKBDMIS ", flags::mis(m));
    out.hex(b"\nKBDBOUNCE ", m.bounce);
    out.hex(b", KBDSIZE ", m.size);
    out.hex(b", KBDMSK ", m.mask);
}

// The power-on interrupt, and how the interrupt line is.
fn level(out: &mut Output, m: &Module)
    ensures { Kept out.old out.new }
{
    let told: &[u8] = if flags::line(m) {
        b", interrupt line asserted\n"
    } else {
        b", interrupt line not asserted\n"
    };
    flag(out, b"\nPORIRQ ", m.porirq);
    out.text(told);
}

// Whether the panel sleeps; while it is awake, how many quiet looks there were in a row. A full stop is the last line.
fn sleep(out: &mut Output, m: &Module)
    ensures { Kept out.old out.new }
{
    if m.asleep {
        out.text(b"asleep\n.\n");
    } else {
        out.text(b"awake, quiet looks ");
        out.decimal(u32::from(m.quiet));
        out.text(b"\n.\n");
    }
}

// The panel: keys, codes, registers, flags, pins, line and sleep; the last line is a full stop.
pub fn show(out: &mut Output, m: &Module)
    ensures { Kept out.old out.new }
{
    grid(out, m);
    codes(out, m);
    raw(out, m);
    settings(out, m);
    spare::drawn(out, m);
    level(out, m);
    sleep(out, m);
}
