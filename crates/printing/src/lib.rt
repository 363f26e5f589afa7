// What agr and agr_cases do: read a schedule from a reader, run it, and print its listing, or only its refusal, to a writer in one write.
#![tactic(auto)]

ghost use Rattle.std.specs.Prelude.{IfErr, IfSome, List, OnOk, replicate, take, ℕ};
ghost use Rattle.std.specs.Io.KnownBytes.{Appends, Consumes};
ghost use Rattle.listing.specs.Listings.{answers_room, report};

use std::io;
use std::io::{ErrorKind, Read, Write};

// One byte more than the longest file has, so that a longer one is seen.
pub const FILE: usize = 36871;

// Three numbers for each of 4,096 events.
pub const ANSWERS: usize = 12288;

// The longest listing.
const TEXT: usize = 183922;

// Writes all of the bytes. The only errors are the writer's, which is handed on, and that it takes no more; it holds then what it took before. Of that
// std's write_all says nothing.
fn write_full<W: Write>(to: &mut W, bytes: &[u8]) -> io::Result<()>
    ensures ok { OnOk result (Appends (W.contents to.old) (W.contents to.new) bytes.now) }
    ensures err { IfErr result (λ _. (k : ℕ) × Appends (W.contents to.old) (W.contents to.new) (take k bytes.now)) }
{
    let mut done = 0;
    while done < bytes.len() {
        let n = to.write(&bytes[done..])?;
        if n == 0 {
            return Err(io::Error::from(ErrorKind::WriteZero));
        }
        done += n;
    }
    Ok(())
}

// Of a reader and a writer whose bytes are known: the report of all that the reader has is written. What fails to be read or written is the
// error of the reader or the writer, and there is no other: the one has lost a front of its bytes, the other has gained what it took.
pub fn print<R: Read, W: Write>(from: &mut R, to: &mut W) -> io::Result<()>
    ensures ok { OnOk result (IfSome (R.remaining from.old) (λ file. Appends (W.contents to.old) (W.contents to.new) (report file (replicate answers_room 0)))) }
    ensures err { IfErr result (λ _. (lost : List ℕ) × (told : List ℕ) × (Consumes (R.remaining from.old) (R.remaining from.new) lost × Appends (W.contents to.old) (W.contents to.new) told)) }
{
    let mut file = [0u8; FILE];
    let mut answers = [0u32; ANSWERS];
    let mut text = [0u8; TEXT];
    let got = reading::read_full(from, &mut file)?;
    let end = listing::report(&file[..got], &mut answers, &mut text);
    write_full(to, &text[..end])
}
