// What is printed.
use std::io;
use std::io::Write;

// A word and four numbers.
pub fn line<W: Write>(out: &mut W, word: &str, a: u32, b: u32, c: u32, d: u32) -> io::Result<()> {
    writeln!(out, "{word} {a} {b} {c} {d}")
}
