// One rule of one rank in one situation.
ghost use Rattle.std.specs.Prelude.{◌<◌};

use super::show::show;
use rank::{Rank, Seat, Triple};
use reader::Reader;
use std::io;
use std::io::Write;
use tree::View;

pub type Command = Reader<17>;

fn number(c: Command, k: u8) -> u32 {
    (c.numbers[(k % 17) as usize] % 0x1_0000_0000) as u32
}

fn small(c: Command, k: u8) -> u8 {
    (number(c, k) % 256) as u8
}

fn set(c: Command, k: u8) -> u64 {
    number(c, k) as u64
}

// Three numbers from the k-th on.
fn triple(c: Command, k: u8) -> Triple
    requires { k < 17 }
{
    Triple {
        word: number(c, k),
        known: set(c, k + 1),
        acknowledged: set(c, k + 2),
    }
}

// The rank that a command describes; its awaited set is still to come.
fn described(c: Command) -> Rank {
    Rank {
        phase: small(c, 6),
        marks: set(c, 7),
        acknowledged: set(c, 8),
        heard: set(c, 9),
        awaited: 0,
        owed: set(c, 10),
        triple: triple(c, 11),
        result: triple(c, 14),
    }
}

// Runs a rule on rank `me` of n, in the flat form, whose awaited set and whose row are the fresh ones: enter, up, down, ask, a notice, or with k
// acknowledge.
#[tactic(auto, using(rank::proofs::Laws::Acting::awaited_is))]
fn act<W: Write>(
    out: &mut W,
    before: Rank,
    n: u8,
    me: u8,
    rule: u8,
    q: u8,
    x: Triple,
) -> io::Result<()> {
    if 64 < n || n <= me || n <= q {
        return Ok(());
    }
    let row = tree::fresh(n, tree::FLAT, 1, before.marks);
    let view = View {
        n,
        form: tree::FLAT,
        span: 1,
        marks: before.marks,
        table: row,
    };
    let mut rank = before;
    rank.awaited = sets::minus(view.children_of(me), rank.heard);
    let seat = Seat {
        n,
        form: tree::FLAT,
        span: 1,
        me,
        rank,
        row,
    };
    let a = match rule {
        b'e' => seat.enter(x.word),
        b'u' => seat.up(q, x),
        b'd' => seat.down(x),
        b'a' => seat.ask(q),
        b'k' => seat.acknowledge(),
        _ => seat.notice(q),
    };
    show(out, a)
}

// A command: the rule's letter, q and the triple x, whose word an enter takes; me, n, the phase, the marks, the acknowledged set,
// heard, owed, the triple and the result.
pub fn obey<W: Write>(out: &mut W, c: Command) -> io::Result<()> {
    act(
        out,
        described(c),
        small(c, 5),
        small(c, 4),
        c.letter,
        small(c, 0),
        triple(c, 1),
    )
}
