// The commands that print: A the answer of a start, E the answers of an event, W which ranks it moved, F how many messages are in flight, R a
// rank's line after its number, K its marks and its acknowledged set, T its triple, V its result, N S M the totals.
use super::by_hand::small;
use super::obey::Told;
use super::script::Totals;
use rank::{Rank, Triple};
use state::State;
use std::io;
use std::io::Write;

// Answer, sent and how many moved.
fn answers<W: Write>(out: &mut W, answer: u32, sent: u32, moved: u32) -> io::Result<()> {
    write!(out, " {answer} {sent} {moved}")
}

// Word, known dead, acknowledged set.
fn triple<W: Write>(out: &mut W, t: Triple) -> io::Result<()> {
    write!(out, " {} {} {}", t.word, t.known, t.acknowledged)
}

fn flight<W: Write>(out: &mut W, s: State) -> io::Result<()> {
    write!(out, "{}", s.group.count)
}

fn verdict<W: Write>(out: &mut W, phase: u8, res: Triple) -> io::Result<()> {
    if phase == rank::DECIDED {
        return write!(out, " {} {}", res.word, res.code());
    }
    write!(out, " - -")
}

// As the schedule's listing has it: 1 if living, phase, the result's word, its code.
fn line<W: Write>(out: &mut W, living: bool, r: Rank) -> io::Result<()> {
    write!(out, " {} {}", living as u32, r.phase)?;
    verdict(out, r.phase, r.result)
}

fn known<W: Write>(out: &mut W, r: Rank) -> io::Result<()> {
    write!(out, " {} {}", r.marks, r.acknowledged)
}

fn rank_at(ranks: [Rank; 64], k: u8) -> Rank {
    ranks[(k % 64) as usize]
}

// What a capital prints of a rank.
fn rank<W: Write>(out: &mut W, s: State, k: u8, b: u8) -> io::Result<()> {
    let g = s.group;
    let r = rank_at(g.ranks, k);
    match b {
        b'K' => known(out, r),
        b'T' => triple(out, r.triple),
        b'V' => triple(out, r.result),
        _ => line(out, !sets::member(g.dead, k % 64), r),
    }
}

fn total<W: Write>(out: &mut W, t: Totals, b: u8) -> io::Result<()> {
    match b {
        b'N' => write!(out, "{}", t.accepted),
        b'S' => write!(out, "{}", t.sent),
        b'M' => write!(out, "{}", t.moved),
        _ => Ok(()),
    }
}

pub fn show<W: Write>(out: &mut W, t: Told, totals: Totals, n: u32, b: u8) -> io::Result<()> {
    match b {
        b'A' => write!(out, " {}", t.answer),
        b'E' => answers(out, t.answer, t.sent, t.moved.count),
        b'W' => write!(out, " {}", t.moved.ranks),
        b'F' => flight(out, t.state),
        b'R' | b'K' | b'T' | b'V' => rank(out, t.state, small(n), b),
        _ => total(out, totals, b),
    }
}
