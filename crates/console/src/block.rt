// `looks S0 S1 ..`: a block of looks, eight samples each.
ghost use Rattle.std.specs.Prelude.{◌≤◌};

use crate::commands::list_of;
use crate::reply::counted;
use crate::session::Session;
use crate::typed::look_at;
use answers::refusal::{Kind, Wrong};
use calls::lent;

// After so many looks of a block: each is recorded as a look, and the contacts are as the samples of the last.
fn looked(s: &mut Session, count: usize, done: usize)
    requires { count ≤ 8192 }
{
    for samples in s.list[..count].chunks_exact(8).take(done) {
        s.contacts.copy_from_slice(samples);
        s.tape.record(look_at(&s.contacts));
    }
}

// `looks S0 S1 ..`
pub(crate) fn looks(s: &mut Session, rest: &[u8]) -> Result<(), Wrong> {
    let count = list_of(rest, 0, Kind::Sample, &mut s.list)?;
    let block = lent::looks(&mut s.panel, &s.list[..count]);
    looked(s, count, block.done);
    counted(&mut s.out, block.outcome, block.done);
    Ok(())
}
