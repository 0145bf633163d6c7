// The panel's console: a command a line in, an answer a line out.
#![tactic(auto)]

mod block;
mod carried;
mod commands;
mod fingers;
mod groups;
mod made;
mod pack;
mod perform;
mod recorder;
mod reply;
mod session;
mod spare;
mod start;
mod typed;

ghost use Rattle.std.specs.Prelude.{◌≤◌, length, IfSome};

use perform::{LONGEST, perform};
use session::Session;
use std::io::Read;
use std::rt::Stdin;
use text::lines::{NEWLINE, newline_from};

// Answers every line that has ended, up to a `quit`, and tells where the next one begins.
fn feed(s: &mut Session, input: &[u8]) -> usize
    ensures { result ≤ length input.now }
{
    let mut start = 0;
    let mut end = newline_from(input, start);
    // kept: the end of a line is searched, and the next line begins behind it: no index counts
    while end < input.len() && s.on {
        perform(s, &input[start..end]);
        start = end + 1;
        end = newline_from(input, start);
    }
    start
}

// The line that begins at a place and has not ended goes to the front of the input, with so many bytes as matter.
// kept: `≤ 16385` stands in three contracts: it is the length that goes on from turn to turn, and a type for it would be made and undone in each
fn keep(input: &mut [u8], from: usize, end: usize) -> usize
    requires { (from ≤ end) × (end ≤ length input.old) }
    ensures { result ≤ 16385 }
{
    let n = (end - from).min(LONGEST + 1);
    input.copy_within(from..from + n, 0);
    n
}

// Waits for input: how many bytes have come. There is none at its end.
fn receive(from: Stdin, input: &mut [u8]) -> Option<usize>
    ensures { IfSome result (λ count. count ≤ length input.new) }
{
    let mut source = from;
    match source.read(input) {
        Ok(0) | Err(_) => None,
        Ok(count) => Some(count),
    }
}

// At the input's end a newline comes, since a final line without one counts.
fn finish(input: &mut [u8]) -> usize
    requires { 1 ≤ length input.old }
    ensures { result ≤ length input.new }
{
    input[0] = NEWLINE;
    1
}

// Answers every line of the input up to a place that has ended, and keeps the one that has not: its length.
fn answer(s: &mut Session, input: &mut [u8], end: usize) -> usize
    requires { end ≤ length input.old }
    ensures { result ≤ 16385 }
{
    let from = feed(s, &input[..end]);
    keep(input, from, end)
}

// Waits for input behind the line that has not ended, answers it and writes the answers out.
fn turn(s: &mut Session, from: Stdin, input: &mut [u8], held: usize) -> usize
    requires { (held ≤ 16385) × (65536 ≤ length input.old) }
    ensures { result ≤ 16385 }
{
    let received = receive(from, &mut input[held..]);
    let count = match received {
        Some(count) => count,
        None => finish(&mut input[held..]),
    };
    let next = answer(s, input, held + count);
    s.out.flush();
    s.on &= received.is_some() & s.out.is_ok();
    next
}

fn main(rt: HostRuntime) {
    // kept: no heap
    let mut input = [0; 65536];
    let mut s = Session::new(rt.stdout());
    start::begin(&rt, &mut s);
    let mut held = 0;
    // kept: a count ends the loop: each is proved to end, and input may come for ever
    for _ in 0..u64::MAX {
        if !s.on {
            break;
        }
        held = turn(&mut s, rt.stdin(), &mut input, held);
    }
    recorder::end(&mut s);
}
