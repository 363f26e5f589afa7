// What a case prints: its heading, then the rank's record, what it sends and moved.
use rank::{Acted, Rank, Send, Triple};
use std::io;
use std::io::Write;

// A set after its name and a brace, as its members, ascending.
fn set<W: Write>(out: &mut W, name: &str, w: u64) -> io::Result<()> {
    write!(out, "{name}")?;
    for k in 0..64u8 {
        if sets::member(w, k) {
            write!(out, " {k}")?;
        }
    }
    write!(out, " }}")
}

// A triple after its name: its word, its known dead and its acknowledged set.
fn triple<W: Write>(out: &mut W, name: &str, t: Triple) -> io::Result<()> {
    write!(out, "{name}{}", t.word)?;
    set(out, " {", t.known)?;
    set(out, " {", t.acknowledged)
}

fn kind(k: u8) -> &'static str {
    match k {
        1 => "UP ",
        2 => "DOWN ",
        3 => "ASK ",
        _ => "- ",
    }
}

fn send<W: Write>(out: &mut W, name: &str, s: Send) -> io::Result<()> {
    write!(out, "{name}")?;
    triple(out, kind(s.kind), s.triple)?;
    set(out, " to {", s.to)
}

fn sets_of<W: Write>(out: &mut W, r: Rank) -> io::Result<()> {
    set(out, " marks {", r.marks)?;
    set(out, " acknowledged {", r.acknowledged)?;
    set(out, " heard {", r.heard)?;
    set(out, " awaited {", r.awaited)?;
    set(out, " owed {", r.owed)
}

fn record<W: Write>(out: &mut W, r: Rank) -> io::Result<()> {
    write!(out, "  phase {}", r.phase)?;
    sets_of(out, r)?;
    triple(out, " triple ", r.triple)?;
    triple(out, " result ", r.result)
}

pub fn show<W: Write>(out: &mut W, a: Acted) -> io::Result<()> {
    record(out, a.rank)?;
    send(out, "\n  sends ", a.first)?;
    send(out, " then ", a.second)?;
    writeln!(out, " moved {}", a.moved.count)
}
