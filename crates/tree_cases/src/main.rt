// Reads calls of mark and climb on views handed in, a case a line, and prints what each answers (answer.rt).
// The model of tests/model made the files stdin and stdout beside src/: random views in every form, damaged tables, numbers in and out of bounds.
#![tactic(auto)]

mod answer;

use answer::Line;
use reader::Reader;
use std::io;
use std::io::{Read, Write};

// A case is answered where its line ends.
fn play<W: Write>(out: &mut W, text: &[u8], line: &mut Line) -> io::Result<()> {
    for b in text {
        if *b == b'\n' {
            answer::answer(out, *line)?;
            *line = Reader::new();
        } else {
            line.take(*b);
        }
    }
    Ok(())
}

// One read, and whether it was the last: one that does not fill its buffer.
fn play_some<R: Read, W: Write>(from: &mut R, out: &mut W, line: &mut Line) -> io::Result<bool> {
    let mut text = [0u8; 16384];
    let got = reading::read_full(from, &mut text)?;
    play(out, &text[..got], line)?;
    Ok(got < 16384)
}

// A proved loop has to end, and nothing says that the input does: the reads are bounded by a number that no run uses up.
fn main(rt: HostRuntime) -> io::Result<()> {
    let mut from = rt.stdin();
    let mut out = rt.stdout();
    let mut line = Reader::new();
    for _ in 0..u64::MAX {
        if play_some(&mut from, &mut out, &mut line)? {
            break;
        }
    }
    Ok(())
}
