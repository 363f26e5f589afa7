// Reads calls of write and read, and prints what each answers (answer.rt).
// The model of tests/model made the files stdin and stdout beside src/: random views and buffers, pictures, and damaged texts.
#![tactic(auto)]

mod answer;

use answer::Script;
use std::io;
use std::io::Write;

// What is being read after the byte before place k.
fn step<W: Write>(out: &mut W, text: &[u8], s: Script, b: u8, k: usize) -> io::Result<Script> {
    match s {
        Script::Bytes(from, 1) => {
            answer::read(out, text, from, k)?;
            Ok(answer::begin())
        }
        Script::Bytes(from, left) => Ok(Script::Bytes(from, left.wrapping_sub(1))),
        Script::Line(line) if b == b'\n' => answer::answer(out, text, line, k),
        Script::Line(mut line) => {
            line.take(b);
            Ok(Script::Line(line))
        }
    }
}

fn play<W: Write>(out: &mut W, text: &[u8]) -> io::Result<()> {
    let mut s = answer::begin();
    for (k, b) in text.iter().enumerate() {
        s = step(out, text, s, *b, k + 1)?;
    }
    Ok(())
}

// A text of cases has at most 262,144 bytes; what is more is not read.
fn main(rt: HostRuntime) -> io::Result<()> {
    let mut text = [0u8; 262144];
    let got = reading::read_full(&mut rt.stdin(), &mut text)?;
    play(&mut rt.stdout(), &text[..got])
}
