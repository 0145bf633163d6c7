// The commands, done and answered.
ghost use Rattle.std.specs.Prelude.{◌≡◌, ◌≤◌, length, true, IfSome};
ghost use Rattle.text.specs.Line.{same};
ghost use Rattle.console.specs.Names.{name};

use crate::commands::{key_of, no_more, too_many};
use crate::made::{BYTES, make, size};
use crate::recorder::heed;
use crate::reply::{listed, question, told};
use crate::session::Session;
use crate::typed::{call_of, form_of, kind_of, samples_of};
use crate::{block, carried, fingers, groups, pack, spare};
use answers::refusal::{Kind, Wrong, refusal, too_long, unknown};
use answers::{draw, help};
use calls::lent;
use carry::call;
use carry::call::Call;
use text::lines::without_return;
use text::word::{is_same, word_from};

// The bytes of the longest line.
pub(crate) const LONGEST: usize = 16384;

const COMMENT: u8 = b'#';

// The commands.
#[derive(Clone, Copy)]
enum Command {
    Call(call::Kind),
    Looks,
    Pack,
    Unpack,
    Play,
    Group,
    Groups,
    Fetch,
    Undo,
    Press,
    Release,
    Wait,
    Held,
    Irq,
    Pins,
    Drive,
    Show,
    Help,
    Quit,
}

// Makes a call, records it and answers it.
fn answered(s: &mut Session, call: Call) {
    // kept: no heap
    let mut bytes = [0; BYTES];
    let outcome = make(s, &call, &mut bytes);
    s.tape.note(call, outcome);
    match (call.kind(), outcome) {
        (call::Kind::Read, Ok(())) => listed(&mut s.out, Ok(&bytes[..size(&call)])),
        (call::Kind::Look, Ok(())) => {
            s.contacts = samples_of(&call);
            told(&mut s.out, outcome);
        }
        _ => told(&mut s.out, outcome),
    }
}

// `look S0 S1 ..`, `write AA B0 B1 ..`, `read AA COUNT`, `reset`
fn called(s: &mut Session, kind: call::Kind, rest: &[u8]) -> Result<(), Wrong> {
    let call = call_of(kind, rest, &mut s.list)?;
    answered(s, call);
    Ok(())
}

// `held ROW COL`
fn held(s: &mut Session, rest: &[u8]) -> Result<(), Wrong> {
    let (row, col) = key_of(rest, Kind::Asked, Kind::Asked)?;
    question(&mut s.out, lent::held(&s.panel, row, col));
    Ok(())
}

// `irq`
fn irq(s: &mut Session, rest: &[u8]) -> Result<(), Wrong> {
    no_more(rest)?;
    question(&mut s.out, lent::interrupt(&s.panel));
    Ok(())
}

// `show`
fn show(s: &mut Session, rest: &[u8]) -> Result<(), Wrong> {
    no_more(rest)?;
    draw::show(&mut s.out, &s.panel);
    Ok(())
}

// `help`, `help numbers`
fn helped(s: &mut Session, rest: &[u8]) -> Result<(), Wrong> {
    let w = word_from(rest, 0);
    if w.start == w.end {
        help::commands(&mut s.out);
        return Ok(());
    }
    no_more(&rest[w.end..])?;
    if !is_same(&rest[w.start..w.end], b"numbers") {
        return Err(too_many());
    }
    help::numbers(&mut s.out);
    Ok(())
}

// `quit`
fn quit(s: &mut Session, rest: &[u8]) -> Result<(), Wrong> {
    no_more(rest)?;
    s.on = false;
    Ok(())
}

// The command that a word names.
#[tactic(auto, unfolding(crate::specs::Names::name))]
fn command_of(word: &[u8]) -> Option<Command>
    ensures { IfSome result (λ command. same word.now (name command) ≡ true) }
{
    Some(match word {
        _ if is_same(word, b"looks") => Command::Looks,
        _ if is_same(word, b"pack") => Command::Pack,
        _ if is_same(word, b"unpack") => Command::Unpack,
        _ if is_same(word, b"play") => Command::Play,
        _ if is_same(word, b"group") => Command::Group,
        _ if is_same(word, b"groups") => Command::Groups,
        _ if is_same(word, b"fetch") => Command::Fetch,
        _ if is_same(word, b"undo") => Command::Undo,
        _ if is_same(word, b"press") => Command::Press,
        _ if is_same(word, b"release") => Command::Release,
        _ if is_same(word, b"wait") => Command::Wait,
        _ if is_same(word, b"held") => Command::Held,
        _ if is_same(word, b"irq") => Command::Irq,
        _ if is_same(word, b"pins") => Command::Pins,
        _ if is_same(word, b"drive") => Command::Drive,
        _ if is_same(word, b"show") => Command::Show,
        _ if is_same(word, b"help") => Command::Help,
        _ if is_same(word, b"quit") => Command::Quit,
        _ => Command::Call(kind_of(word)?),
    })
}

impl Command {
    // How it is typed.
    fn form(self) -> &'static [u8] {
        match self {
            Command::Call(kind) => form_of(kind),
            Command::Looks => b"looks S0 S1 ..",
            Command::Pack => b"pack ROOM CALL ; CALL ..",
            Command::Unpack => b"unpack HEX..",
            Command::Play => b"play HEX..",
            Command::Group => b"group RULE TRIM PLACE C0 C1 ..",
            Command::Groups => b"groups RULE TRIM C0 C1 ..",
            Command::Fetch => b"fetch RULE TRIM PLACE C0 C1 ..",
            Command::Undo => b"undo TRIM, undo TRIM : C0 C1 ..",
            Command::Press => b"press ROW COL",
            Command::Release => b"release ROW COL",
            Command::Wait => b"wait N",
            Command::Held => b"held ROW COL",
            Command::Irq => b"irq",
            Command::Pins => b"pins SAMPLE",
            Command::Drive => b"drive",
            Command::Show => b"show",
            Command::Help => b"help, help numbers",
            Command::Quit => b"quit",
        }
    }

    // Does it, with the words behind it, and answers it, unless something is wrong with them.
    // kept: `length rest.now ≤ 16384` stands in eight contracts: each hands the slice itself on, which a struct for a line would have to give back, and be no plainer
    fn done(self, s: &mut Session, rest: &[u8]) -> Result<(), Wrong>
        requires { length rest.now ≤ 16384 }
    {
        match self {
            Command::Call(kind) => called(s, kind, rest),
            Command::Looks => block::looks(s, rest),
            Command::Pack => pack::pack(s, rest),
            Command::Unpack => carried::unpack(s, rest),
            Command::Play => carried::play(s, rest),
            Command::Group => groups::group(s, rest),
            Command::Groups => groups::all(s, rest),
            Command::Fetch => groups::fetch(s, rest),
            Command::Undo => groups::undo(s, rest),
            Command::Press => fingers::press(s, rest),
            Command::Release => fingers::release(s, rest),
            Command::Wait => fingers::wait(s, rest),
            Command::Held => held(s, rest),
            Command::Irq => irq(s, rest),
            Command::Pins => spare::pins(s, rest),
            Command::Drive => spare::drive(s, rest),
            Command::Show => show(s, rest),
            Command::Help => helped(s, rest),
            Command::Quit => quit(s, rest),
        }
    }
}

// Does the command that a word names, with the words behind it, and answers it.
fn named(s: &mut Session, word: &[u8], rest: &[u8])
    requires { length rest.now ≤ 16384 }
{
    let Some(command) = command_of(word) else {
        unknown(&mut s.out, word);
        return;
    };
    if let Err(wrong) = command.done(s, rest) {
        refusal(&mut s.out, rest, wrong, command.form());
    }
}

// Does the command of a line that is not too long. A blank line and a comment ask for nothing.
fn asked(s: &mut Session, line: &[u8])
    requires { length line.now ≤ 16384 }
{
    let w = word_from(line, 0);
    if w.start < w.end && line[w.start] != COMMENT {
        named(s, &line[w.start..w.end], &line[w.end..]);
    }
}

// Does what a line asks for and answers it.
pub(crate) fn perform(s: &mut Session, line: &[u8]) {
    if LONGEST < line.len() {
        too_long(&mut s.out);
        return;
    }
    asked(s, &line[..without_return(line)]);
    heed(s);
}
