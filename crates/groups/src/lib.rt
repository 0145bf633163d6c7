// The group reader for C (include/panel.h), in an archive of its own: it is for the computer that has the codes, and no panel needs it.
#![tactic(auto)]

ghost use Rattle.std.specs.Prelude.{◌≡◌, ◌≤◌};
ghost use Rattle.undo.specs.Answers.{answered};
ghost use Rattle.undo.specs.Stands.{stands, first_in, end_in};
ghost use Rattle.undo.specs.Walk.{walk_call, walk_buffer};
ghost use Rattle.groups.specs.Told.{of_stand, part_of, of_walked};

use numbers::Refusal;
use undo::{Stand, Walked};

// What stands at a place, as words: C gets four of them, and three too, in memory on every target. Its kind is one of those below.
// kept: kinds and numbers as words, for the C interface
#[repr(C)]
#[derive(Clone, Copy)]
pub struct Standing {
    pub number: usize,
    pub kind: usize,
    pub first: usize,
    pub end: usize,
}

// Nothing is told, and the number says why.
const DECLINED: usize = 0;

// A finished group.
const GROUP: usize = 1;

// An open one.
const OPEN: usize = 2;

// The end of the list.
const END: usize = 3;

// A part of the list: its first place, and how many codes it has.
#[repr(C)]
#[derive(Clone, Copy)]
pub struct Part {
    pub number: usize,
    pub first: usize,
    pub length: usize,
}

// What the walk has handed out.
#[repr(C)]
#[derive(Clone, Copy)]
pub struct Handed {
    pub number: usize,
    pub groups: usize,
    pub tail: usize,
}

// An answer, in words.
fn standing_of(answer: Result<Stand, Refusal>) -> Standing
    ensures { result ≡ of_stand (answered answer) }
{
    let none = Standing {
        number: usize::from(numbers::told(answer)),
        kind: DECLINED,
        first: 0,
        end: 0,
    };
    let Ok(stand) = answer else {
        return none;
    };
    match stand {
        Stand::Group(first, end) => Standing {
            kind: GROUP,
            first,
            end,
            ..none
        },
        Stand::Open(place) => Standing {
            kind: OPEN,
            first: place,
            end: place,
            ..none
        },
        Stand::Nothing => Standing { kind: END, ..none },
    }
}

// The part that an answer leads to.
fn part_of(answer: Result<Stand, Refusal>) -> Part
    requires { first_in (answered answer) ≤ end_in (answered answer) }
    ensures { result ≡ part_of (answered answer) }
{
    let none = Part {
        number: usize::from(numbers::told(answer)),
        first: 0,
        length: 0,
    };
    // a question that is declined leads to as much as the end of the list does
    let Stand::Group(first, end) = answer.unwrap_or(Stand::Nothing) else {
        return none;
    };
    Part {
        first,
        length: end - first,
        ..none
    }
}

// What stands at a place of a list of codes?
#[unsafe(no_mangle)]
pub extern "C" fn panel_group_value(trim: u8, codes: &[u8], place: usize) -> Standing
    ensures { result ≡ of_stand (stands trim codes.now place) }
{
    standing_of(undo::stands(trim, codes, place))
}

// Which part of the list is the finished group at a place? It is empty where none begins, and if the question is declined.
#[unsafe(no_mangle)]
pub extern "C" fn panel_stretch_part(trim: u8, codes: &[u8], place: usize) -> Part
    ensures { result ≡ part_of (stands trim codes.now place) }
{
    part_of(undo::stands(trim, codes, place))
}

// All groups: the place after each, in order, as far as the buffer has room.
#[unsafe(no_mangle)]
pub extern "C" fn panel_groups_value(trim: u8, codes: &[u8], ends: &mut [usize]) -> Handed
    ensures { (result ≡ of_walked (walk_call trim codes.now)) × (ends.new ≡ walk_buffer trim codes.now ends.old) }
{
    let handed = undo::walk(trim, codes, ends);
    let walked = handed.unwrap_or(Walked { groups: 0, tail: 0 });
    Handed {
        number: usize::from(numbers::told(handed)),
        groups: walked.groups,
        tail: walked.tail,
    }
}
