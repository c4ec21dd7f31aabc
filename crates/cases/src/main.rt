// Cases 1 to 11 of document 01 by the proved commands, each command a word of six letters, and a line for each word.
//
// A word is the case (two letters), a verb, the logical page, a letter, and the number of steps after which the command is cut:
//   f    format
//   p    power-up
//   w4f  write of page 4, all bytes `f`; w4f0 the same, cut at 0
//   r4   read of page 4; r4- into a buffer of 511 bytes
//
// A line has the word, the answer with its programs and erases, what power-up or read gave (the table; the sum of the page), and the sums
// of the image after it (data bytes, spare bytes). A sum is of each byte times its place, from 1 on.
// `host/second/examples/cases.rs` writes the same lines by the second program.

#![tactic(auto)]

ghost use Rattle.std.specs.Prelude.{◌≡◌, ◌≤◌, length};

mod commands;
mod lines;

use rules::kind::LOG;
use std::io;

// The images of 4 blocks, each of 4 pages.
type Bytes = [u8; 8192];

type Spare = [u8; 256];

// Runs the words one after another.
fn play(
    out: &impl Print,
    bytes: &mut [u8],
    spare: &mut [u8],
    logs: usize,
    words: &[u8],
) -> io::Result<()> {
    for word in words.chunks_exact(6) {
        commands::run(out, bytes, spare, logs, word)?;
    }
    Ok(())
}

// The write of case 5, cut at 0 to 7, each time on a copy of the card.
fn case_6(out: &impl Print, bytes: Bytes, spare: Spare) -> io::Result<()> {
    let mut words = *b" 6w4f0 6p    6r4  ";
    for cut in b'0'..b'8' {
        words[5] = cut;
        let mut data = bytes;
        let mut marks = spare;
        play(out, &mut data, &mut marks, 1, &words)?;
    }
    Ok(())
}

// On one card. Case 6 starts, as case 5 does, from the card of case 4.
fn cases_1_to_9(out: &impl Print) -> io::Result<()> {
    let mut bytes: Bytes = [255; 8192];
    let mut spare: Spare = [255; 256];
    play(
        out,
        &mut bytes,
        &mut spare,
        1,
        b" 1f    1r3   2w1a  3w0b  3w1c  3w2d  3r1   4w3e ",
    )?;
    case_6(out, bytes, spare)?;
    play(
        out,
        &mut bytes,
        &mut spare,
        1,
        b" 5w4f  7p    7w5g  7w6h  7w7i  7p    8w4j  8w5k  8w6l  8w7m  9r7   9r8   9r8- ",
    )
}

// The data bytes of 65 erased blocks. A card of fewer is lent the first of them: 2,048 data bytes and 64 spare bytes a block.
fn erased_bytes() -> [u8; 133120]
    ensures { 133120 ≡ length result }
{
    [255; 133120]
}

// The spare bytes of 65 blocks: erased but for the first page's number (its low byte), kind, status and logical page (both bytes).
fn spare_with(low: u8, kind: u8, status: u8, page: u8) -> [u8; 4160]
    ensures { 4160 ≡ length result }
{
    let mut spare = [255; 4160];
    spare[0] = low;
    spare[4] = kind;
    spare[5] = status;
    spare[6] = page;
    spare[7] = page;
    spare
}

// Block 0 is a log block of logical block 0 with one page. Its number has this low byte and three of 255: 254 stands for 4,294,967,294.
// Page 4 is written first: where that is refused, nothing has changed.
fn case_10(out: &impl Print, blocks: usize, logs: usize, low: u8) -> io::Result<()>
    requires { blocks ≤ 65 }
{
    let mut bytes = erased_bytes();
    let mut spare = spare_with(low, LOG, 255, 0);
    play(
        out,
        &mut bytes[0..blocks * 2048],
        &mut spare[0..blocks * 64],
        logs,
        b"10w4n 10w0o ",
    )
}

// Block 0 has this status: 255 good, 0 bad.
fn case_11(out: &impl Print, blocks: usize, status: u8) -> io::Result<()>
    requires { blocks ≤ 65 }
{
    let mut bytes = erased_bytes();
    let mut spare = spare_with(255, 255, status, 255);
    play(
        out,
        &mut bytes[0..blocks * 2048],
        &mut spare[0..blocks * 64],
        1,
        b"11f   ",
    )
}

fn main(rt: HostRuntime) -> io::Result<()> {
    cases_1_to_9(&rt)?;
    case_10(&rt, 4, 1, 254)?;
    case_10(&rt, 4, 1, 253)?;
    case_10(&rt, 5, 2, 253)?;
    case_11(&rt, 64, 255)?;
    case_11(&rt, 65, 255)?;
    case_11(&rt, 0, 255)?;
    case_11(&rt, 4, 0)
}
