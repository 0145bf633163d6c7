// The lists of the commands and of the numbers; their last line is a full stop.
ghost use Rattle.answers.specs.Outputs.{Kept};

use crate::out::Output;

// The commands.
pub fn commands(out: &mut Output)
    ensures { Kept out.old out.new }
{
    out.text(
        b"reset              the panel after reset; the contacts stay as they are\n\
        look S0 S1 ..      one look: a 16-bit sample for each row; bit c is column c, bit 12 the SF key, which hides its row\n\
        looks S0 S1 ..     a block of looks, eight samples each, up to the first declined; tells how many were done\n\
        press ROW COL      a finger closes this contact, for as many looks as KBDBOUNCE says\n\
        release ROW COL    the finger opens it, for as many looks\n\
        wait N             N looks with the contacts as they are\n\
        write AA B0 B1 ..  a write access: bytes to the registers from address AA on\n\
        read AA COUNT      a read access: COUNT bytes of the registers from address AA on\n\
        held ROW COL       is this key held?\n\
        irq                is the interrupt line asserted?\n\
        pins SAMPLE        the spare pins are sampled: bit i is pin i, 0 to 18; no packed list and no recording has it\n\
        drive              which pins are driven: 0 or 1 for each from pin 0 on, - if it isn't\n\
        pack ROOM CALL ..  the calls, with ; between them, as a packed list for a buffer of ROOM bytes\n\
        unpack HEX..       the calls of a packed list\n\
        play HEX..         the panel is reset and makes the calls of a packed list\n\
        group RULE TRIM PLACE C0 ..  what stands at a place of a list of codes, cut into undo groups: group FIRST END, open PLACE or end\n\
        groups RULE TRIM C0 ..       all undo groups of a list of codes\n\
        fetch RULE TRIM PLACE C0 ..  the codes of the group that begins at a place\n\
        undo TRIM [: C0 ..]          the undo groups of the codes fetched since the last restart, or of a list, drawn\n\
        show               the panel drawn: # held, . open, + and - while the contact settles; pins: r row, c column, > output, < input, # an edge, IE its enable\n\
        help               this list; help numbers lists what a call can answer\n\
        quit               ends the input\n\
        Samples, addresses, bytes and codes are hexadecimal; counts, rows, columns, rules and places are decimal; COL is 0 to 11, 12 or SF.\n\
        The answer is the call's number, 0 if it was done, and what was asked for.\n\
        .\n",
    );
}

// The numbers.
pub fn numbers(out: &mut Output)
    ensures { Kept out.old out.new }
{
    out.text(
        b"A call answers with a number: 0 if it was done. Any other declines it, and nothing is altered but as 2 and 27 tell.\n\
        0  done\n\
        1  look: the list isn't eight samples, or a block's not a multiple of eight\n\
        2  look: some sample has bit 13, 14 or 15 set; a block's looks before it stay done\n\
        3  access: no bytes\n\
        4  access: more than 32 bytes\n\
        5  access: some address of the run is unknown, or can't be read or written as asked\n\
        6  write: a byte for KBDSIZE isn't acceptable\n\
        7  held question: row above 7 or column above 12\n\
        8  look, access, pins, question: the panel's state is unsound; never after a reset\n\
        20 packed list: cut short or padded wrongly\n\
        21 packed list: no room\n\
        22 undo groups: the place is beyond the end\n\
        23 undo groups: the trim key's code is no press of a key, or some code no press or release of one\n\
        24 undo groups: a press of a key that is down, or a release of one that is up\n\
        25 undo groups: the place is inside a group, or past the start of an open one\n\
        26 pins: some bit above 18 is set\n\
        27 access: the panel slept; it is awake now, so repeat the access\n\
        9 was given by no call, is retired and gets no new use.\n\
        .\n",
    );
}
