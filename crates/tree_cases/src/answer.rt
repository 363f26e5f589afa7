// A case is a line: a word, of which the first letter counts, and numbers with a space before each:
//   climb N FORM BOX MARKS RANK ALLOWANCE
//   mark N FORM BOX MARKS RANK T0 .. T63
//   who N FORM BOX MARKS RANK T0 .. T63
// It prints `climb NUMBER RANK LINKS`, `mark NUMBER MARKS COUNT T0 .. T63`, or for a mark asked who moved `who NUMBER COUNT RANKS`.
use answers::Refusal;
use calls::{Climbed, NotClimbed, NotMarked};
use reader::Reader;
use std::io;
use std::io::Write;
use tree::Mended;

pub type Line = Reader<69>;

fn small(n: u64) -> u32 {
    (n % 0x1_0000_0000) as u32
}

fn climbed<W: Write>(out: &mut W, number: u32, rank: u8, links: u32) -> io::Result<()> {
    writeln!(out, "climb {number} {rank} {links}")
}

// The number of each reply, its rank and its links.
fn told<W: Write>(out: &mut W, reply: Result<Climbed, NotClimbed>) -> io::Result<()> {
    match reply {
        Ok(root) => climbed(out, 0, root.rank, root.links),
        Err(NotClimbed::Short(at)) => climbed(out, Refusal::TooShort.number(), at.rank, at.links),
        Err(NotClimbed::FromMarked(rank)) => climbed(out, Refusal::DeadRank.number(), rank, 0),
        Err(NotClimbed::Refused(refusal)) => climbed(out, refusal.number(), sets::NONE, 0),
    }
}

fn climb<W: Write>(out: &mut W, numbers: [u64; 69]) -> io::Result<()> {
    let reply = calls::climb(
        small(numbers[0]),
        small(numbers[1]),
        small(numbers[2]),
        numbers[3],
        small(numbers[4]),
        small(numbers[5]),
    );
    told(out, reply)
}

// The table that stands after a mark's first five numbers.
fn table_of(numbers: [u64; 69]) -> [u8; 64] {
    let mut table = [0u8; 64];
    for p in 0..64 {
        table[p] = (numbers[p + 5] % 256) as u8;
    }
    table
}

fn entries<W: Write>(out: &mut W, table: [u8; 64]) -> io::Result<()> {
    for parent in table {
        write!(out, " {parent}")?;
    }
    Ok(())
}

fn mark(numbers: [u64; 69]) -> Result<Mended, NotMarked> {
    calls::mark(
        small(numbers[0]),
        small(numbers[1]),
        small(numbers[2]),
        numbers[3],
        table_of(numbers),
        small(numbers[4]),
    )
}

// A refused mark hands the view back.
fn marked<W: Write>(out: &mut W, reply: Result<Mended, NotMarked>) -> io::Result<()> {
    match reply {
        Ok(m) => {
            write!(out, "mark 0 {} {}", m.marks, m.moved.count)?;
            entries(out, m.table)?;
        }
        Err(r) => {
            write!(out, "mark {} {} 0", r.refusal.number(), r.marks)?;
            entries(out, r.table)?;
        }
    }
    writeln!(out)
}

fn who<W: Write>(out: &mut W, reply: Result<Mended, NotMarked>) -> io::Result<()> {
    match reply {
        Ok(m) => writeln!(out, "who 0 {} {}", m.moved.count, m.moved.ranks),
        Err(r) => writeln!(out, "who {} 0 0", r.refusal.number()),
    }
}

pub fn answer<W: Write>(out: &mut W, line: Line) -> io::Result<()> {
    match line.letter {
        b'c' => climb(out, line.numbers),
        b'm' => marked(out, mark(line.numbers)),
        b'w' => who(out, mark(line.numbers)),
        _ => Ok(()),
    }
}
