// The function that the benchmark links to race it against plain Rust: the run of a file, in a library of its own, so that it is compiled as in
// the program. It refuses as the run does and requires nothing.
#![tactic(auto)]

ghost use Rattle.std.specs.Prelude.{◌≡◌};
ghost use Rattle.schedule.specs.Runs.{run};

// Runs a schedule file; the final state is dropped.
#[unsafe(no_mangle)]
pub extern "C" fn duha_run(file: &[u8], out: &mut [u32]) -> u32
    ensures value { result ≡ (run file.now out.old).answer }
    ensures out_after { out.new ≡ (run file.now out.old).answers }
{
    let mut s = state::empty_state();
    match schedule::run_on(file, out, &mut s) {
        Ok(()) => 0,
        Err(refusal) => refusal.number(),
    }
}
