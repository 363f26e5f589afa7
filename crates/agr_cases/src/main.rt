// Prints the listing of each schedule in data/, 000.agr to 203.agr: 200 random ones, then no bytes, six bytes, the most events, and one byte more.
// The model of tests/model made them and the file stdout beside src/, which holds the listings that it expects.
#![tactic(auto)]

use arrayvec::ArrayString;
use std::fmt::Write as _;
use std::fs::File;
use std::io;
use std::io::Write;
use std::rt::Files;

// Opens a file and prints what the program prints of it.
fn print<F: Files, W: Write>(files: &F, to: &mut W, path: &str) -> io::Result<()> {
    let mut file = File::open(files, path)?;
    printing::print(&mut file, to)
}

fn main(rt: HostRuntime) -> io::Result<()> {
    let mut to = rt.stdout();
    for k in 0..204u32 {
        let mut name = ArrayString::<7>::new();
        write!(name, "{k:03}.agr")?;
        print(&rt, &mut to, &name)?;
    }
    Ok(())
}
