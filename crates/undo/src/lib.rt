// Undo groups: a list of codes, oldest first, cut into groups by the trim key.
#![tactic(auto)]

ghost use Rattle.std.specs.Prelude.{◌≡◌, ◌<◌, ◌≤◌, length, get_or, set, eqb, Ok};
ghost use Rattle.numbers.specs.Numbers.{number_of};
ghost use Rattle.numbers.specs.Refusals.{told};
ghost use Rattle.codes.specs.Codes.{opposite};
ghost use Rattle.undo.specs.Answers.{stood, answered, walked};
ghost use Rattle.undo.specs.Groups.{groups_of, ends_with_release};
ghost use Rattle.undo.specs.Stands.{is_trim, marks_of, stand_at, stands, IsStretch};
ghost use Rattle.undo.specs.Walk.{ends_from, walk_lines, handed, walk_call, over, walk_buffer};
ghost use Rattle.undo.specs.Places.{next_at, place_lines};

use numbers::Refusal;

// What stands at a place: a finished group, from its first place to the place after its last; one that is open, by its first place;
// or the end of the list.
#[derive(Clone, Copy)]
pub enum Stand {
    Group(usize, usize),
    Open(usize),
    Nothing,
}

// What the walk has handed out: how many groups, and the first place of the open tail.
#[derive(Clone, Copy)]
pub struct Walked {
    pub groups: usize,
    pub tail: usize,
}

// Is a code a trim key's: a press?
fn is_trim(trim: u8) -> bool
    ensures { result ≡ is_trim trim }
{
    trim <= 127 && keys::is_code(trim)
}

// Is a list declined by itself?
fn of_list(trim: u8, codes: &[u8]) -> Result<(), Refusal>
    ensures { told result ≡ number_of (walk_lines trim codes.now) }
{
    if !is_trim(trim) || codes::good(codes) < codes.len() {
        return Err(Refusal::BadCode);
    }
    if codes::agreeing(codes) < codes.len() {
        return Err(Refusal::BadChange);
    }
    Ok(())
}

// Is a list with a place declined, but for a place inside a group?
fn of_place(trim: u8, codes: &[u8], place: usize) -> Result<(), Refusal>
    ensures { told result ≡ number_of (place_lines trim codes.now place) }
{
    if codes.len() < place {
        return Err(Refusal::BeyondEnd);
    }
    of_list(trim, codes)
}

// Has a group ended with this code? It is the trim key's release.
fn has_ended(trim: u8, code: u8) -> bool
    ensures { result ≡ eqb code (opposite trim) }
{
    code == codes::opposite(trim)
}

// The group that the trim key opens at a place: up to the code with which it ends, or open.
fn group_from(trim: u8, codes: &[u8], at: usize) -> Stand
    requires { (at < length codes.now) × (get_or codes.now at 0 ≡ trim) }
    ensures { stood result ≡ next_at (ends_with_release trim) trim codes.now at }
{
    for i in at + 1..codes.len() {
        if has_ended(trim, codes[i]) {
            return Stand::Group(at, i + 1);
        }
    }
    Stand::Open(at)
}

// What stands at a place where something begins.
fn next(trim: u8, codes: &[u8], at: usize) -> Stand
    ensures { stood result ≡ next_at (ends_with_release trim) trim codes.now at }
{
    match codes.get(at) {
        None => Stand::Nothing,
        Some(code) if *code != trim => Stand::Group(at, at + 1),
        Some(_) => group_from(trim, codes, at),
    }
}

// What stands at a place of a list that is not declined: the groups before it are gone through.
fn stand_at(trim: u8, codes: &[u8], place: usize) -> Result<Stand, Refusal>
    requires { place ≤ length codes.now }
    ensures { answered result ≡ stand_at place (marks_of (ends_with_release trim) trim codes.now) }
{
    if codes.len() <= place {
        return Ok(Stand::Nothing);
    }
    let mut at: usize = 0;
    // kept: the walk goes from group to group, of which there is no list to go over; document 01 names its `let .. else`
    while at < place {
        let Stand::Group(_, end) = next(trim, codes, at) else {
            return Err(Refusal::InsideGroup);
        };
        at = end;
    }
    if place < at {
        return Err(Refusal::InsideGroup);
    }
    Ok(next(trim, codes, at))
}

// What stands at a place of a list of codes, oldest first, by the trim key's press code?
pub fn stands(trim: u8, codes: &[u8], place: usize) -> Result<Stand, Refusal>
    ensures { answered result ≡ stands trim codes.now place }
{
    of_place(trim, codes, place)?;
    stand_at(trim, codes, place)
}

// The stretch of the list that is the finished group at a place; it is empty where none begins, and if the question is declined.
pub fn stretch<'a>(trim: u8, codes: &'a [u8], place: usize) -> &'a [u8]
    ensures { IsStretch trim codes.entry place result }
{
    // a question that is declined leads to as much as the end of the list does
    let Stand::Group(first, end) = stands(trim, codes, place).unwrap_or(Stand::Nothing) else {
        return &codes[0..0];
    };
    &codes[first..end]
}

// Writes the place after a group, if there is room for it.
fn put(ends: &mut [usize], at: usize, end: usize)
    ensures { ends.new ≡ set ends.old at end }
{
    if at < ends.len() {
        ends[at] = end;
    }
}

// Hands out the groups of a list that is not declined, one after another.
fn hand_out(trim: u8, codes: &[u8], ends: &mut [usize]) -> Walked
    ensures { (walked (Ok result) ≡ handed (groups_of (ends_with_release trim) trim codes.now)) × (ends.new ≡ over (ends_from 0 (groups_of (ends_with_release trim) trim codes.now).groups) ends.old) }
{
    let mut groups: usize = 0;
    let mut at: usize = 0;
    // kept: the walk goes from group to group, of which there is no list to go over; document 01 names its `let .. else`
    while at < codes.len() {
        let Stand::Group(_, end) = next(trim, codes, at) else {
            return Walked { groups, tail: at };
        };
        put(ends, groups, end);
        at = end;
        groups += 1;
    }
    Walked { groups, tail: at }
}

// Hands out all groups: the place after each, in order, as far as the buffer has room.
pub fn walk(trim: u8, codes: &[u8], ends: &mut [usize]) -> Result<Walked, Refusal>
    ensures { (walked result ≡ walk_call trim codes.now) × (ends.new ≡ walk_buffer trim codes.now ends.old) }
{
    of_list(trim, codes)?;
    Ok(hand_out(trim, codes, ends))
}
