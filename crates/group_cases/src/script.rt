// A script, byte by byte. What stands outside braces is printed as it is. In braces each letter is a command about the last numbers
// before it: small letters act (obey.rt), capitals print (show.rt).
use std::io;
use std::io::Write;

// Whether the reader is in braces, whether it is in a number, and the last seven numbers, the latest last.
#[derive(Clone, Copy)]
pub struct Reader {
    pub hidden: bool,
    pub inside: bool,
    pub last: [u32; 7],
}

// The events accepted since the last start, and what they sent and moved.
#[derive(Clone, Copy)]
pub struct Totals {
    pub accepted: u32,
    pub sent: u32,
    pub moved: u32,
}

pub fn begin() -> Reader {
    Reader {
        hidden: false,
        inside: false,
        last: [0; 7],
    }
}

pub fn nothing() -> Totals {
    Totals {
        accepted: 0,
        sent: 0,
        moved: 0,
    }
}

// The totals after a command.
pub fn count(mut t: Totals, b: u8, answer: u32, sent: u32, moved: u32) -> Totals {
    match b {
        b's' | b'f' => nothing(),
        b'e' if answer == 0 => {
            t.accepted = t.accepted.wrapping_add(1);
            t.sent = t.sent.wrapping_add(sent);
            t.moved = t.moved.wrapping_add(moved);
            t
        }
        _ => t,
    }
}

// A digit begins a number, in the place of the oldest, or joins the one that is being read; in ASCII it is its byte modulo 16.
fn digit(mut r: Reader, b: u8) -> Reader {
    if !r.inside {
        r.last.rotate_left(1);
        r.last[6] = 0;
    }
    r.last[6] = r.last[6].wrapping_mul(10).wrapping_add((b % 16) as u32);
    r.inside = true;
    r
}

fn other(mut r: Reader, b: u8) -> Reader {
    r.inside = false;
    r.hidden = (r.hidden || b == b'{') && b != b'}';
    r
}

// The reader after one more byte; one outside braces is printed.
pub fn take<W: Write>(out: &mut W, r: Reader, b: u8) -> io::Result<Reader> {
    if !r.hidden && b != b'{' {
        out.write_all(&[b])?;
    }
    if b.is_ascii_digit() {
        return Ok(digit(r, b));
    }
    Ok(other(r, b))
}
