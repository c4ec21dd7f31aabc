// What is written: text, numbers, and sums of bytes.
use rules::answer::Answer;
use std::io;

pub(crate) fn text(out: &impl Print, letters: &[u8]) -> io::Result<()> {
    out.write_all(letters)
}

fn number(out: &impl Print, n: usize) -> io::Result<()> {
    print!(out; " {n}")
}

// An answer: its number, its programs and its erases.
pub(crate) fn answer(out: &impl Print, a: Answer) -> io::Result<()> {
    print!(out; " {a}")
}

// Power-up's table.
pub(crate) fn table(out: &impl Print, t: &[u16]) -> io::Result<()> {
    for entry in t {
        number(out, usize::from(*entry))?;
    }
    Ok(())
}

pub(crate) fn sum(out: &impl Print, bytes: &[u8]) -> io::Result<()> {
    number(out, placed_sum(bytes))
}

// The sum of each byte times its place, from 1 on. A byte in front moves the others a place on: `placed` grows by the sum of all.
// No sum here wraps: there are at most 133,120 bytes.
fn placed_sum(bytes: &[u8]) -> usize {
    let mut all = 0usize;
    let mut placed = 0usize;
    for byte in bytes.iter().rev() {
        all = all.wrapping_add(usize::from(*byte));
        placed = placed.wrapping_add(all);
    }
    placed
}

// The end of a line: the sums of the data bytes and of the spare bytes.
pub(crate) fn image(out: &impl Print, bytes: &[u8], spare: &[u8]) -> io::Result<()> {
    sum(out, bytes)?;
    sum(out, spare)?;
    text(out, b"\n")
}
