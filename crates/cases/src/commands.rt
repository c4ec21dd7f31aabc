// The commands on a card of P 4 and L 2, each with its line.
ghost use Rattle.std.specs.Prelude.{◌≡◌, length};

use super::lines;
use std::io;

const PAGES: usize = 4;

const LOGICAL: usize = 2;

// A cut number that no list reaches.
const NO_CUT: usize = usize::MAX;

// What a word says to do.
enum Command {
    Format,
    PowerUp,
    // of page `number`, into a buffer of 512 bytes, or of 511
    Read {
        number: usize,
        short: bool,
    },
    // of page `number`, all bytes `letter`
    Write {
        number: usize,
        letter: u8,
        cut: usize,
    },
}

// The number that a digit stands for; a blank stands for none.
fn digit(letter: u8) -> Option<usize> {
    letter.checked_sub(b'0').map(usize::from)
}

impl Command {
    fn of(word: &[u8]) -> Self
        requires { length word.now ≡ 6 }
    {
        let number = digit(word[3]).unwrap_or(0);
        match word[2] {
            b'f' => Command::Format,
            b'p' => Command::PowerUp,
            b'r' => Command::Read {
                number,
                short: word[4] == b'-',
            },
            _ => Command::Write {
                number,
                letter: word[4],
                cut: digit(word[5]).unwrap_or(NO_CUT),
            },
        }
    }
}

fn power_up(out: &impl Print, bytes: &mut [u8], spare: &mut [u8], logs: usize) -> io::Result<()> {
    let mut table = [0u16; 4];
    let answer = card::power_up(bytes, spare, &mut table, PAGES, LOGICAL, logs, NO_CUT);
    lines::answer(out, answer)?;
    lines::table(out, &table)
}

// Reads into a buffer of 0s.
fn read(
    out: &impl Print,
    bytes: &[u8],
    spare: &[u8],
    logs: usize,
    number: usize,
    short: bool,
) -> io::Result<()> {
    let mut room = [0u8; 512];
    let page = &mut room[..if short { 511 } else { 512 }];
    let answer = card::read(bytes, spare, page, PAGES, LOGICAL, logs, number);
    lines::answer(out, answer)?;
    lines::sum(out, page)
}

// Runs the command of one word, and writes its line.
// The lent images and K come one by one: a struct of them was tried, and its `run`, which lends two of its fields to one call, got no proof.
pub(crate) fn run(
    out: &impl Print,
    bytes: &mut [u8],
    spare: &mut [u8],
    logs: usize,
    word: &[u8],
) -> io::Result<()>
    requires { length word.now ≡ 6 }
{
    lines::text(out, word)?;
    match Command::of(word) {
        Command::Format => {
            let answer = card::format(bytes, spare, PAGES, LOGICAL, logs, NO_CUT);
            lines::answer(out, answer)
        }
        Command::PowerUp => power_up(out, bytes, spare, logs),
        Command::Read { number, short } => read(out, bytes, spare, logs, number, short),
        Command::Write {
            number,
            letter,
            cut,
        } => {
            let page = [letter; 512];
            let answer = card::write(bytes, spare, &page, PAGES, LOGICAL, logs, number, cut);
            lines::answer(out, answer)
        }
    }?;
    lines::image(out, bytes, spare)
}
