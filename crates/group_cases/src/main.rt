// Runs document 01's examples 10 and 11 through start and event, and meets every refusal of an event, 1 to 11.
// The file stdout beside src/ was worked out by hand from document 01 and request 2026-08; each heading quotes the sentence that it comes from.
// The file stdin has the same lines without the answers, and the commands that lead to them in braces (script.rt).
#![tactic(auto)]

mod by_hand;
mod obey;
mod script;
mod show;

use std::io;
use std::io::Write;

// Prints the script, and obeys its commands as they come.
fn play<W: Write>(out: &mut W, text: &[u8]) -> io::Result<()> {
    let mut t = obey::start(0, 0, 1);
    let mut totals = script::nothing();
    let mut r = script::begin();
    for b in text {
        if r.hidden {
            t = obey::obey(t, r.last, *b);
            totals = script::count(totals, *b, t.answer, t.sent, t.moved.count);
            show::show(out, t, totals, r.last[6], *b)?;
        }
        r = script::take(out, r, *b)?;
    }
    Ok(())
}

// A script has room for 4,096 events.
fn main(rt: HostRuntime) -> io::Result<()> {
    let mut text = [0u8; 262144];
    let got = reading::read_full(&mut rt.stdin(), &mut text)?;
    play(&mut rt.stdout(), &text[..got])
}
