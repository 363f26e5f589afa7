// The run of a schedule's events. The entry point for callers is run; it refuses bad input and requires nothing.
#![tactic(auto)]

ghost use Rattle.std.specs.Prelude.{◌≡◌, ◌+◌, ◌*◌, ◌≤◌, length};
ghost use Rattle.answers.specs.Answers.{answer_of};
ghost use Rattle.state.specs.Starting.{empty_state};
ghost use Rattle.playing.specs.Playing.{spelt};
ghost use Rattle.files.specs.Files.{event_at};
ghost use Rattle.schedule.specs.Runs.{run, told};

use answers::Refusal;
use state::{Refused, State};

// Spells a file's events out as numbers, where their answers will stand. batches has the same loop over lent numbers: one that takes the events from
// a closure proves, but where the closure reads a lent slice the prover's own goal at the call, `the-fit-spell-requires`, does not type-check.
fn spell(file: &[u8], total: usize, out: &mut [u32])
    requires total_in_bounds { 6 + 9 * total ≤ length file.now }
    requires total_in_bounds_2 { 3 * total ≤ length out.old }
    ensures { out.new ≡ spelt (event_at file.now) total out.old }
{
    for k in 0..total {
        let ev = files::event_at(file, k);
        playing::put_three(out, k, ev.kind, ev.a, ev.b);
    }
}

// Runs a schedule file on the empty state that the caller lends, which stays as it is where the file is refused.
pub fn run_on(file: &[u8], out: &mut [u32], s: &mut State) -> Result<(), Refusal>
    requires { s.old ≡ empty_state }
    ensures answer { answer_of result ≡ (run file.now out.old).answer }
    ensures s_after { s.new ≡ (run file.now out.old).state }
    ensures out_after { out.new ≡ (run file.now out.old).answers }
{
    let h = files::read_header(file)?;
    let total = h.events as usize;
    if out.len() < 3 * total {
        return Err(Refusal::FewPlaces);
    }
    state::seat(s, h.n, tree::FLAT, 1);
    spell(file, total, out);
    playing::play_on(total, out, s);
    Ok(())
}

// Entry point: runs a schedule file, which means the flat form with box size 1, and writes answer, sent and moved's count for each event. Refuses with 20, 21, 22, 1, 24, 23 and 25.
pub fn run(file: &[u8], out: &mut [u32]) -> Result<State, Refused>
    ensures { told result out.new ≡ run file.now out.old }
{
    let mut s = state::empty_state();
    match run_on(file, out, &mut s) {
        Ok(()) => Ok(s),
        Err(refusal) => Err(Refused { refusal, state: s }),
    }
}
