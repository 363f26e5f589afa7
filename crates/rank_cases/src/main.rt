// Runs one rank through hand-made situations, one for each branch of each rule, and prints its record, its sends and moved.
// The cases stand in the file stdin beside src/, each under the sentence that it comes from. The file stdout was worked out by hand
// from document 01, request 2026-04 (who reports to an undecided rank is owed) and request 2026-08 (a triple for a word).
// A line that starts with `>` is a command: a letter, and numbers in the order in which they stand; what other words it has is for the reader.
// Any other line is a heading, and is printed.
#![tactic(auto)]

mod act;
mod show;

use act::Command;
use reader::Reader;
use std::io;
use std::io::Write;

// The command that is being read, if one is, after one more byte; a heading's byte is printed.
fn step<W: Write>(out: &mut W, command: Option<Command>, b: u8) -> io::Result<Option<Command>> {
    match command {
        _ if b == b'>' => Ok(Some(Reader::new())),
        None => {
            out.write_all(&[b])?;
            Ok(None)
        }
        Some(c) if b == b'\n' => {
            act::obey(out, c)?;
            Ok(None)
        }
        Some(mut c) => {
            c.take(b);
            Ok(Some(c))
        }
    }
}

fn play<W: Write>(out: &mut W, text: &[u8]) -> io::Result<()> {
    let mut command = None;
    for b in text {
        command = step(out, command, *b)?;
    }
    Ok(())
}

fn main(rt: HostRuntime) -> io::Result<()> {
    let mut text = [0u8; 16384];
    let got = reading::read_full(&mut rt.stdin(), &mut text)?;
    play(&mut rt.stdout(), &text[..got])
}
