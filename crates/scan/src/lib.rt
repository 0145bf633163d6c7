// What one look does to a module.
#![tactic(auto)]

ghost use Rattle.std.specs.Prelude.{◌≡◌, false, ◌<◌, ◌≤◌, ◌+◌, ◌*◌, ◌/◌, length};
ghost use Rattle.contact.specs.Contact.{sight_of};
ghost use Rattle.scan.specs.Scan.{looked};
ghost use Rattle.scan.specs.Walk as walk;
ghost use Rattle.scan.specs.Walk.{Walked, parts_of};

use contact::Sight;
use keys::{COLS, Col, KEYS, ROW_KEYS, Row, SPECIAL};
use state::Module;

// kept: `col.0 < 13` stands in three contracts: Row and Col are C's as well, with any byte in them
// Is a key closed, by its row's sample? Out of the size it counts as open.
fn is_closed(sample: u16, size: u8, row: Row, col: Col) -> bool
    requires { col.0 < 13 }
    ensures { result ≡ walk.counted sample size row.0 col.0 }
{
    keys::is_in_size(size, row, col) && (sample >> col.0) % 2 == 1
}

// How a key in sight reads, by its row's sample.
fn reading(sample: u16, size: u8, row: Row, col: Col) -> Sight
    requires { col.0 < 13 }
    ensures { result ≡ sight_of false (walk.counted sample size row.0 col.0) }
{
    if is_closed(sample, size, row, col) {
        Sight::Closed
    } else {
        Sight::Open
    }
}

// The first column of a row that a look shows: while its special function contact is closed, that one alone is in sight.
fn first_shown(sample: u16, size: u8, row: Row) -> u8
    ensures { result ≡ walk.first_shown sample size row.0 }
{
    if is_closed(sample, size, row, Col(SPECIAL)) {
        SPECIAL
    } else {
        0
    }
}

// What a look does to one key and to the queue. Has the key changed?
fn look_at(m: &mut Module, row: Row, col: Col, sight: Sight, bounce: u8) -> bool
    requires { (row.0 < 8) × (col.0 < 13) }
    ensures { Walked (walk.at_key bounce (13 * row.0 + col.0) sight (parts_of m.old false)) m.old m.new result }
{
    let key = ROW_KEYS * (row.0 as usize) + (col.0 as usize);
    let x = contact::follow(m.held[key], m.run[key], sight, bounce);
    m.held[key] = x.held;
    m.run[key] = x.run;
    if x.changed {
        m.put(keys::code_at(row, col, x.held));
        true
    } else {
        false
    }
}

// What a look does to the keys of a row, by column. Those that are hidden stay as they are, and are not walked. Has a key changed?
fn look_at_row(m: &mut Module, row: u8, sample: u16) -> bool
    requires { row < 8 }
    ensures { Walked (walk.at_row m.old.bounce m.old.size sample row (parts_of m.old false) 13) m.old m.new result }
{
    let size = m.size;
    let bounce = m.bounce;
    let mut any = false;
    for col in first_shown(sample, size, Row(row))..COLS {
        let sight = reading(sample, size, Row(row), Col(col));
        any |= look_at(m, Row(row), Col(col), sight, bounce);
    }
    any
}

// What a look does to the keys of the rows in the size. Rows out of it are still, and are not walked. Has a key changed?
fn look_at_rows(m: &mut Module, samples: &[u16]) -> bool
    requires { (length samples.now ≡ 8) × (m.old.size / 16 ≤ 8) }
    ensures { Walked (walk.at_rows m.old.bounce m.old.size samples.now (parts_of m.old false) (m.old.size / 16)) m.old m.new result }
{
    let mut any = false;
    for row in 0..m.size / 16 {
        any |= look_at_row(m, row, samples[row as usize]);
    }
    any
}

// Is some contact settling: has some key a run? All keys are asked, without a way out, so that many are asked at once.
fn is_settling(run: &[u8; KEYS]) -> bool
    ensures { result ≡ walk.runs run.now }
{
    let mut settling = false;
    for n in run {
        settling |= 0 < *n;
    }
    settling
}

// What one look does to a module.
pub fn look(m: &mut Module, samples: &[u16])
    requires { (length samples.now ≡ 8) × walk.Still m.old.size m.old.held m.old.run }
    ensures { m.new ≡ looked m.old samples.now }
{
    if look_at_rows(m, samples) {
        m.rklint |= m.rsint;
        m.rsint = true;
        m.seen = [false; 4];
        m.count_look(true);
    } else {
        let settling = is_settling(&m.run);
        m.count_look(settling);
    }
}
