// Runs events in one call, and once more cut into parts, a call each on the state that the call before left; prints what the calls tell and leave.
// The model of tests/model made the files stdin and stdout beside src/: random events, wild ones too, cut anywhere, with places enough and too few.
//
// The text is numbers, whatever stands between them. A case has
//   SIZE FORM BOX HAND PLACES NUMBERS PARTS   size, form and box size of the group to start, what is changed by hand then (by_hand.rt), the
//                                    answer places lent for the whole run, how many numbers it has, and into how many parts it is cut
//   NUMBERS PLACES ..                for each part: how many numbers it takes after those of the part before, and the places lent for them
//   KIND A B ..                      the numbers of the run
// and prints
//   calls ANSWER ..                  what the call for each part answers
//   whole ANSWER SUM PAST STATE      of the one call, and of the calls for the parts: the first answer that is not 0, or 0; the checksum of the
//   parts ANSWER SUM PAST STATE      answer places, one to a number; how many places past those were written to; the checksum of the state
//   same                             or differ: whether answer, places and state are the same, number by number
// Where no call is refused, so where each takes a multiple of three numbers and is lent as many places, they are the same.
#![tactic(auto)]

mod by_hand;
mod runs;
mod script;
mod show;
mod sums;

use std::io;
use std::io::Write;

// Plays the case at a place, and answers where the next begins; of a case that is not whole, its own place.
fn play_one<W: Write>(out: &mut W, numbers: &[u32], at: usize) -> io::Result<usize> {
    let c = script::case_at(numbers, at);
    if numbers.len() < c.to {
        return Ok(at);
    }
    runs::play(out, numbers, c)?;
    Ok(c.to)
}

fn play<W: Write>(out: &mut W, numbers: &[u32]) -> io::Result<()> {
    let mut at: usize = 0;
    while at < numbers.len() {
        let next = play_one(out, numbers, at)?;
        if next <= at {
            return Ok(());
        }
        at = next;
    }
    Ok(())
}

fn read<W: Write>(out: &mut W, text: &[u8]) -> io::Result<()> {
    let mut numbers = [0u32; 131072];
    let count = script::numbers(text, &mut numbers);
    if 131072 < count {
        return Ok(());
    }
    play(out, &numbers[..count])
}

// A text has at most 262,144 bytes, and so half as many numbers; what is more is not read.
fn main(rt: HostRuntime) -> io::Result<()> {
    let mut text = [0u8; 262144];
    let got = reading::read_full(&mut rt.stdin(), &mut text)?;
    read(&mut rt.stdout(), &text[..got])
}
