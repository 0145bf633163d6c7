// Undo groups: what stands at a place, all groups of a list of codes, and the list drawn for a person.
ghost use Rattle.answers.specs.Outputs.{Kept, Passed};

use crate::change::{Change, change_of};
use crate::out::Output;
use keys::SPECIAL;
use numbers::Refusal;
use undo::Stand;

// How many groups are told of at most.
// kept: no heap: the ends stand in a fixed list, and the walk says how many there are.
const MOST: usize = 8192;

// A name, and a place or how many there are.
fn count(out: &mut Output, name: &[u8], number: usize)
    ensures { Kept out.old out.new }
{
    out.text(name);
    out.decimal(number.min(999999) as u32);
}

// The number of a refusal alone.
fn refused(out: &mut Output, refusal: Refusal)
    ensures { Kept out.old out.new }
{
    out.decimal(u32::from(refusal.number()));
    out.end();
}

// A group by its places.
fn group(out: &mut Output, first: usize, end: usize)
    ensures { Kept out.old out.new }
{
    count(out, b" group ", first);
    count(out, b" ", end);
}

// What stands at a place of a list.
pub fn stand(out: &mut Output, trim: u8, codes: &[u8], place: usize)
    ensures { Kept out.old out.new }
{
    match undo::stands(trim, codes, place) {
        Ok(Stand::Group(first, end)) => {
            out.put(b'0');
            group(out, first, end);
            out.end();
        }
        Ok(Stand::Open(place)) => {
            count(out, b"0 open ", place);
            out.end();
        }
        Ok(Stand::Nothing) => out.text(b"0 end\n"),
        Err(refusal) => refused(out, refusal),
    }
}

// The codes of the group that begins at a place of a list.
pub fn stretch(out: &mut Output, trim: u8, codes: &[u8], place: usize)
    ensures { Kept out.old out.new }
{
    match undo::stands(trim, codes, place) {
        Ok(_) => {
            out.put(b'0');
            out.listed(undo::stretch(trim, codes, place));
            out.end();
        }
        Err(refusal) => refused(out, refusal),
    }
}

// Tells of each of the groups that end at these places, by its first place and the place behind its last.
fn each<F: Fn(&mut Output, usize, usize)>(out: &mut Output, ends: &[usize], tell: F)
    requires callable { F.IsAlwaysCallable tell }
    requires keeps { (o : _) (first : _) (end : _) (r : _) (after : _) → F.post tell o first end r after → Passed o.now after.now }
    ensures { Passed out.old out.new }
{
    let mut first = 0;
    for end in ends {
        tell(out, first, *end);
        first = *end;
    }
}

// All groups of a list, by their places.
pub fn all(out: &mut Output, trim: u8, codes: &[u8])
    ensures { Kept out.old out.new }
{
    // kept: no heap
    let mut ends = [0; MOST];
    match undo::walk(trim, codes, &mut ends) {
        Ok(walked) => {
            out.put(b'0');
            each(out, &ends[..walked.groups.min(MOST)], group);
            if walked.tail < codes.len() {
                count(out, b" open ", walked.tail);
                out.end();
            } else {
                out.text(b" end\n");
            }
        }
        Err(refusal) => refused(out, refusal),
    }
}

// The key of a code: row and column.
fn key(out: &mut Output, code: u8)
    ensures { Kept out.old out.new }
{
    let Change { row, col, .. } = change_of(code);
    out.decimal(u32::from(row.0));
    out.put(b'.');
    if col.0 == SPECIAL {
        out.text(b"SF");
    } else {
        out.decimal(u32::from(col.0));
    }
}

// A code behind a blank: a press or a release, and its key.
fn change(out: &mut Output, code: u8)
    ensures { Kept out.old out.new }
{
    out.text(if change_of(code).pressed {
        b" +"
    } else {
        b" -"
    });
    key(out, code);
}

// A place, right-aligned in four columns.
fn aligned(out: &mut Output, place: usize)
    ensures { Kept out.old out.new }
{
    let blanks: &[u8] = match place {
        0..=9 => b"   ",
        10..=99 => b"  ",
        100..=999 => b" ",
        _ => b"",
    };
    count(out, blanks, place);
}

// The line of a group.
fn line(out: &mut Output, first: usize, name: &[u8], codes: &[u8])
    ensures { Kept out.old out.new }
{
    aligned(out, first);
    out.text(name);
    for code in codes {
        change(out, *code);
    }
    out.end();
}

// The line of a finished group, from its first place to the place behind its last.
fn finished(out: &mut Output, trim: u8, codes: &[u8], first: usize, end: usize)
    ensures { Passed out.old out.new }
{
    let to = end.min(codes.len());
    if first < to {
        let name = if codes[first] == trim {
            b"  group "
        } else {
            b"  alone "
        };
        line(out, first, name, &codes[first..to]);
    }
}

// The line of the group that is open at the end, if there is one.
fn tail(out: &mut Output, codes: &[u8], first: usize)
    ensures { Passed out.old out.new }
{
    if first < codes.len() {
        line(out, first, b"  open  ", &codes[first..]);
    }
}

// The first code that doesn't agree with those before it.
fn disagreement(out: &mut Output, place: usize, code: u8)
    ensures { Kept out.old out.new }
{
    let told: &[u8] = if change_of(code).pressed {
        b" presses a key that is down:"
    } else {
        b" lets go a key that is up:"
    };
    count(out, b"24 place ", place);
    out.text(told);
    change(out, code);
    out.end();
}

// The first code that is no press or release of a key, or else the first that doesn't agree with those before it, if there is one.
fn wrong_code(out: &mut Output, codes: &[u8])
    ensures { Passed out.old out.new }
{
    let bad = codes::good(codes);
    if bad < codes.len() {
        count(out, b"23 place ", bad);
        out.hex(b" is no press or release of a key: ", codes[bad]);
        out.end();
    } else {
        let wrong = codes::agreeing(codes);
        if wrong < codes.len() {
            disagreement(out, wrong, codes[wrong]);
        }
    }
}

// Why a list is declined.
fn declined(out: &mut Output, trim: u8, codes: &[u8])
    ensures { Passed out.old out.new }
{
    // a list of no codes is declined for its trim key alone
    if undo::walk(trim, &[], &mut []).is_err() {
        out.hex(b"23 the trim key's code is no press of a key: ", trim);
        out.end();
    } else {
        wrong_code(out, codes);
    }
}

// The groups of a list, a line each, below the trim key and how many codes there are.
fn body(out: &mut Output, trim: u8, codes: &[u8], ends: &[usize], open: usize)
    ensures { Kept out.old out.new }
{
    out.text(b"trim key ");
    key(out, trim);
    count(out, b"; codes: ", codes.len());
    out.text(b"; + press, - release\n");
    each(
        out,
        ends,
        |out, first, end| finished(out, trim, codes, first, end),
    );
    tail(out, codes, open);
}

// The groups of a list drawn, or why it is declined; of the codes since the restart there may have been more. The last line is a full stop.
pub fn drawn(out: &mut Output, trim: u8, codes: &[u8], more: bool)
    ensures { Kept out.old out.new }
{
    // kept: no heap
    let mut ends = [0; MOST];
    match undo::walk(trim, codes, &mut ends) {
        Ok(walked) => {
            body(
                out,
                trim,
                codes,
                &ends[..walked.groups.min(MOST)],
                walked.tail,
            );
            out.text(if more {
                b"only the first 8192 codes since the restart are kept\n.\n".as_slice()
            } else {
                b".\n"
            });
        }
        Err(_) => {
            declined(out, trim, codes);
            out.text(b".\n");
        }
    }
}
