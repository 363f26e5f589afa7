// The schedule program: reads a schedule file from standard input and prints its listing, or only its refusal.
#![tactic(auto)]

use std::io;

fn main(rt: HostRuntime) -> io::Result<()> {
    printing::print(&mut rt.stdin(), &mut rt.stdout())
}
