// Two runs of numbers side by side: the checksum of each, and whether they are the same, number by number.
// A checksum takes each number in turn, h * 1000003 + x, modulo the prime 4294967291; of 64 bits first the low half, then the high.
use super::script::number;
use rank::{Message, Rank, Triple};
use state::State;

#[derive(Clone, Copy)]
pub struct Sums {
    pub a: u32,
    pub b: u32,
    pub same: bool,
}

pub fn none() -> Sums {
    Sums {
        a: 0,
        b: 0,
        same: true,
    }
}

fn mixed(h: u32, x: u32) -> u32 {
    ((h as u64 * 1000003 + x as u64) % 4294967291) as u32
}

fn take(t: Sums, x: u32, y: u32) -> Sums {
    Sums {
        a: mixed(t.a, x),
        b: mixed(t.b, y),
        same: t.same & (x == y),
    }
}

fn low(x: u64) -> u32 {
    (x % 0x1_0000_0000) as u32
}

fn high(x: u64) -> u32 {
    (x / 0x1_0000_0000) as u32
}

fn take_long(t: Sums, x: u64, y: u64) -> Sums {
    take(take(t, low(x), low(y)), high(x), high(y))
}

fn triple(t: Sums, x: Triple, y: Triple) -> Sums {
    let word = take(t, x.word, y.word);
    let known = take_long(word, x.known, y.known);
    take_long(known, x.acknowledged, y.acknowledged)
}

fn triples(t: Sums, x: &Rank, y: &Rank) -> Sums {
    triple(triple(t, x.triple, y.triple), x.result, y.result)
}

fn rank(t: Sums, x: &Rank, y: &Rank) -> Sums {
    let phase = take(t, x.phase as u32, y.phase as u32);
    let marks = take_long(phase, x.marks, y.marks);
    let acknowledged = take_long(marks, x.acknowledged, y.acknowledged);
    let heard = take_long(acknowledged, x.heard, y.heard);
    let awaited = take_long(heard, x.awaited, y.awaited);
    let owed = take_long(awaited, x.owed, y.owed);
    triples(owed, x, y)
}

// Of two arrays, place by place.
fn over<T, const N: usize, F: Fn(Sums, &T, &T) -> Sums>(
    before: Sums,
    x: &[T; N],
    y: &[T; N],
    each: F,
) -> Sums
    requires { F.IsAlwaysCallable each }
{
    let mut t = before;
    for k in 0..N {
        t = each(t, &x[k], &y[k]);
    }
    t
}

fn message(t: Sums, x: &Message, y: &Message) -> Sums {
    let kind = take(t, x.kind as u32, y.kind as u32);
    let from = take(kind, x.from as u32, y.from as u32);
    let to = take(from, x.to as u32, y.to as u32);
    triple(to, x.triple, y.triple)
}

fn row(t: Sums, x: &[u8; 64], y: &[u8; 64]) -> Sums {
    over(t, x, y, |t, a, b| take(t, *a as u32, *b as u32))
}

// Of all that two states have: size, form, box size, count, dead, the 64 ranks, the 128 places of messages, the 64 tables.
pub fn states(x: &State, y: &State) -> Sums {
    let g = &x.group;
    let h = &y.group;
    let size = take(none(), g.n as u32, h.n as u32);
    let form = take(size, g.form as u32, h.form as u32);
    let span = take(form, g.span as u32, h.span as u32);
    let count = take(span, g.count as u32, h.count as u32);
    let dead = take_long(count, g.dead, h.dead);
    let ranks = over(dead, &g.ranks, &h.ranks, rank);
    let messages = over(ranks, &g.net, &h.net, message);
    over(messages, &x.tables, &y.tables, row)
}

// Of so many answer places: those of the whole from a place on, and a part's.
pub fn places(before: Sums, whole: &[u32], from: usize, part: &[u32], count: usize) -> Sums {
    let mut t = before;
    for k in 0..count {
        t = take(t, number(whole, from.wrapping_add(k)), number(part, k));
    }
    t
}

// How many places from one on do not hold the mark any more.
pub fn past(before: u32, places: &[u32], from: usize, mark: u32) -> u32 {
    let mut found = before;
    for place in places.iter().skip(from) {
        if *place != mark {
            found = found.wrapping_add(1);
        }
    }
    found
}
