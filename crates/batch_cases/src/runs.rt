// A case: the whole run by one call, and its parts by one call each.
use super::script::Case;
use super::sums::Sums;
use super::{by_hand, script, show, sums};
use state::State;
use std::io;
use std::io::Write;

// What an answer place holds before a call; nothing is answered so.
const MARK: u32 = 4000000000;

// The most answer places that are lent.
const MOST: usize = 1024;

// What the calls for the first parts have told and left: the first answer that is not 0, the places beside those of the whole run, how many
// places past them were written to, and the state.
#[derive(Clone, Copy)]
struct Told {
    answer: u32,
    places: Sums,
    past: u32,
    state: State,
}

fn first(before: u32, answer: u32) -> u32 {
    if before != 0 {
        return before;
    }
    answer
}

// What one call answers, as a number, and the state that it leaves.
#[derive(Clone, Copy)]
struct Ran {
    answer: u32,
    state: State,
}

fn no_call(state: State) -> Ran {
    Ran {
        answer: MARK,
        state,
    }
}

// One call on a stretch of the numbers. One that is not there, or more places than there are, is no call.
fn run(numbers: &[u32], from: usize, to: usize, places: &mut [u32], lent: usize, s: State) -> Ran {
    if to < from || numbers.len() < to || places.len() < lent {
        return no_call(s);
    }
    match batches::lend(&numbers[from..to], &mut places[..lent], s) {
        Ok(state) => Ran { answer: 0, state },
        Err(r) => Ran {
            answer: r.refusal.number(),
            state: r.state,
        },
    }
}

// The call for a part that begins `at` numbers after the whole run does.
fn part<W: Write>(
    out: &mut W,
    c: Case,
    numbers: &[u32],
    whole: &[u32],
    at: usize,
    count: usize,
    lent: usize,
    t: Told,
) -> io::Result<Told> {
    let from = c.from.wrapping_add(at);
    let mut places = [MARK; MOST];
    let ran = run(
        numbers,
        from,
        from.wrapping_add(count),
        &mut places,
        lent,
        t.state,
    );
    write!(out, " {}", ran.answer)?;
    Ok(Told {
        answer: first(t.answer, ran.answer),
        places: sums::places(t.places, whole, at, &places, count),
        past: sums::past(t.past, &places, count, MARK),
        state: ran.state,
    })
}

// The calls for all parts, one after the other.
fn parts<W: Write>(
    out: &mut W,
    c: Case,
    total: usize,
    numbers: &[u32],
    whole: &[u32],
    state: State,
) -> io::Result<Told> {
    let mut t = Told {
        answer: 0,
        places: sums::none(),
        past: 0,
        state,
    };
    let mut at: usize = 0;
    for k in 0..total {
        let place = c.list.wrapping_add(k.wrapping_mul(2));
        let count = script::length(numbers, place, 0);
        let lent = script::length(numbers, place, 1);
        t = part(out, c, numbers, whole, at, count, lent, t)?;
        at = at.wrapping_add(count);
    }
    Ok(t)
}

fn verdict(same: bool) -> &'static str {
    if same {
        return "same";
    }
    "differ"
}

fn compare<W: Write>(out: &mut W, answer: u32, past: u32, state: State, t: Told) -> io::Result<()> {
    let held = sums::states(&state, &t.state);
    show::line(out, "whole", answer, t.places.a, past, held.a)?;
    show::line(out, "parts", t.answer, t.places.b, t.past, held.b)?;
    let said = verdict((answer == t.answer) & (past == t.past) & t.places.same & held.same);
    writeln!(out, "{said}")
}

fn start(size: u32, form: u32, span: u32, hand: u32) -> State {
    match state::start(size, form, span) {
        Ok(s) => by_hand::after(s, hand),
        Err(r) => by_hand::after(r.state, hand),
    }
}

pub fn play<W: Write>(out: &mut W, numbers: &[u32], c: Case) -> io::Result<()> {
    let before = start(c.size, c.form, c.span, c.hand);
    let mut places = [MARK; MOST];
    let ran = run(numbers, c.from, c.to, &mut places, c.places, before);
    let past = sums::past(0, &places, c.count, MARK);
    write!(out, "calls")?;
    let t = parts(out, c, c.parts, numbers, &places, before)?;
    writeln!(out)?;
    compare(out, ran.answer, past, ran.state, t)
}
