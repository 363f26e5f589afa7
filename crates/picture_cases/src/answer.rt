// A case is a line: a word, of which the first letter counts, and numbers with a space before each:
//   write N MARKS ROOM
//   read LENGTH, and after the line so many bytes
// It prints `write NUMBER LENGTH` and then the lent buffer, which held dots, on lines of its own; `read NUMBER SIZE MARKS`.
use reader::Reader;
use std::io;
use std::io::Write;

// The largest buffer that a case lends.
const ROOM: usize = 1024;

// What is being read: a line, or the bytes after one, from which place and how many are left.
#[derive(Clone, Copy)]
pub enum Script {
    Line(Reader<3>),
    Bytes(usize, u64),
}

pub fn begin() -> Script {
    Script::Line(Reader::new())
}

fn small(n: u64) -> u32 {
    (n % 0x1_0000_0000) as u32
}

fn lend<W: Write>(out: &mut W, n: u32, marks: u64, buffer: &mut [u8]) -> io::Result<()> {
    match pictures::write(n, marks, buffer) {
        Ok(length) => writeln!(out, "write 0 {length}")?,
        Err(refusal) => writeln!(out, "write {} 0", refusal.number())?,
    }
    out.write_all(buffer)?;
    writeln!(out)
}

fn write<W: Write>(out: &mut W, n: u32, marks: u64, room: usize) -> io::Result<()> {
    if ROOM < room {
        return Ok(());
    }
    let mut buffer = [b'.'; ROOM];
    lend(out, n, marks, &mut buffer[..room])
}

// Reads the bytes between two places.
pub fn read<W: Write>(out: &mut W, bytes: &[u8], from: usize, to: usize) -> io::Result<()> {
    if to < from || bytes.len() < to {
        return Ok(());
    }
    match pictures::read(&bytes[from..to]) {
        Ok(view) => writeln!(out, "read 0 {} {}", view.n, view.marks),
        Err(refusal) => writeln!(out, "read {} 0 0", refusal.number()),
    }
}

// Answers the case of a line that ends before place k, or begins to read the bytes from there on.
pub fn answer<W: Write>(out: &mut W, bytes: &[u8], r: Reader<3>, k: usize) -> io::Result<Script> {
    match r.letter {
        b'w' => {
            let room = (r.numbers[2] % 4096) as usize;
            write(out, small(r.numbers[0]), r.numbers[1], room)?;
        }
        b'r' if r.numbers[0] != 0 => return Ok(Script::Bytes(k, r.numbers[0])),
        b'r' => read(out, bytes, k, k)?,
        _ => {}
    }
    Ok(begin())
}
