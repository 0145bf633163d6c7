// `pins SAMPLE` and `drive`: the spare pins. No packed list has either, so neither is recorded.
use crate::commands::{last_number, no_more};
use crate::reply::{levels, told};
use crate::session::Session;
use answers::refusal::{Kind, Wrong};
use calls::lent;

// `pins SAMPLE`
pub(crate) fn pins(s: &mut Session, rest: &[u8]) -> Result<(), Wrong> {
    let sample = last_number(rest, 0, Kind::Pins)?;
    told(&mut s.out, lent::pins(&mut s.panel, sample));
    Ok(())
}

// kept: `irq` is its like; two lines each are plainer than one function that is given question and answer
// `drive`
pub(crate) fn drive(s: &mut Session, rest: &[u8]) -> Result<(), Wrong> {
    no_more(rest)?;
    levels(&mut s.out, lent::drive(&s.panel));
    Ok(())
}
