// The pictures of a schedule's end: reads a schedule file from standard input and prints the picture of each living rank's view, or only its
// refusal, in one write.
#![tactic(auto)]

ghost use Rattle.std.specs.Prelude.{IfErr, IfSome, List, OnOk, replicate, ℕ};
ghost use Rattle.std.specs.Io.KnownBytes.{Appends, Consumes};
ghost use Rattle.listing.specs.Listings.{answers_room};
ghost use Rattle.drawing.specs.Drawings.{drawing};

use printing::{ANSWERS, FILE};
use std::io;
use std::io::{Read, Write};

// 64 pictures.
const TEXT: usize = 214528;

// Of a reader and a writer whose bytes are known: the drawing of all that the reader has is written. What fails has taken a front of the reader's
// bytes; of what it wrote std's write_all says nothing.
// The steps of printing::print. One function for both would take the report as a closure, and ask of it, for all lent buffers, what of them it may be
// called on and what it writes: more to read than these lines.
fn print<R: Read, W: Write>(from: &mut R, to: &mut W) -> io::Result<()>
    ensures ok { OnOk result (IfSome (R.remaining from.old) (λ file. Appends (W.contents to.old) (W.contents to.new) (drawing file (replicate answers_room 0)))) }
    ensures err { IfErr result (λ _. (lost : List ℕ) × Consumes (R.remaining from.old) (R.remaining from.new) lost) }
{
    let mut file = [0u8; FILE];
    let mut answers = [0u32; ANSWERS];
    let mut text = [0u8; TEXT];
    let got = reading::read_full(from, &mut file)?;
    let end = drawing::report(&file[..got], &mut answers, &mut text);
    to.write_all(&text[..end])
}

fn main(rt: HostRuntime) -> io::Result<()> {
    print(&mut rt.stdin(), &mut rt.stdout())
}
