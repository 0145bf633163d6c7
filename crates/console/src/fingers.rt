// Fingers: contacts that stay as they are, look after look.
use crate::commands::{key_of, last_number};
use crate::reply::told;
use crate::session::Session;
use crate::typed::look_at;
use answers::refusal::{Kind, Wrong};
use calls::lent;
use keys::{Col, Row};
use numbers::Refusal;

// A sample with one contact closed or open.
fn with_contact(sample: u16, col: Col, closed: bool) -> u16 {
    let weight = 1 << (col.0 % 16);
    if closed {
        sample | weight
    } else {
        sample & !weight
    }
}

// Turns one contact.
fn turn(s: &mut Session, row: Row, col: Col, closed: bool) {
    let r = usize::from(row.0 % keys::ROWS);
    s.contacts[r] = with_contact(s.contacts[r], col, closed);
}

// So many looks, or up to the first that is declined, with the contacts as they are; each is recorded.
fn looks(s: &mut Session, count: u32) -> Result<(), Refusal> {
    let call = look_at(&s.contacts);
    for _ in 0..count {
        let outcome = lent::look(&mut s.panel, &s.contacts);
        s.tape.record(call);
        outcome?;
    }
    Ok(())
}

// A finger closes or opens the contact of a row and a column, for as many looks as make the panel believe it.
fn finger(s: &mut Session, rest: &[u8], closed: bool) -> Result<(), Wrong> {
    let (row, col) = key_of(rest, Kind::Row, Kind::Col)?;
    turn(s, row, col, closed);
    let outcome = looks(s, u32::from(s.panel.bounce.max(1)));
    told(&mut s.out, outcome);
    Ok(())
}

// `press ROW COL`
pub(crate) fn press(s: &mut Session, rest: &[u8]) -> Result<(), Wrong> {
    finger(s, rest, true)
}

// `release ROW COL`
pub(crate) fn release(s: &mut Session, rest: &[u8]) -> Result<(), Wrong> {
    finger(s, rest, false)
}

// `wait N`
pub(crate) fn wait(s: &mut Session, rest: &[u8]) -> Result<(), Wrong> {
    let count = last_number(rest, 0, Kind::Looks)?;
    let outcome = looks(s, count);
    told(&mut s.out, outcome);
    Ok(())
}
