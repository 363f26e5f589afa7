// The listing of a run, and what the schedule program prints of a file.
#![tactic(auto)]

ghost use Rattle.std.specs.Prelude.{◌+◌, ◌*◌, ◌≤◌, ◌≡◌, get_or, length};
ghost use Rattle.state.specs.States.{zero_rank};
ghost use Rattle.text.specs.Text.{Wrote, lines};
ghost use Rattle.text.specs.Pages.{HasRoom, Puts};
ghost use Rattle.schedule.specs.Runs.{run};
ghost use Rattle.lines.specs.Lines.{event_line, rank_line};
ghost use Rattle.listing.specs.Listings.{answers_room, listing, report, text_room};

use lines::{put_event, put_first, put_last, put_rank, put_refused};
use state::{Group, State};
use text::Page;

// The event lines, ascending.
fn put_events(page: &mut Page, answers: &[u32], events: usize)
    requires page_in_bounds { HasRoom page.old (44 * events) }
    requires answers_in_bounds { 3 * events ≤ length answers.now }
    requires events_bound { events ≤ 4096 }
    ensures { Puts page.old (lines (event_line answers.now) events) page.new }
{
    page.put_lines(events, |page, k| put_event(page, answers, k));
}

// The rank lines, ascending.
fn put_ranks(page: &mut Page, g: &Group)
    requires page_in_bounds { HasRoom page.old (57 * g.now.n) }
    requires n_bound { g.now.n ≤ 64 }
    ensures { Puts page.old (lines (λ i. rank_line g.now.dead i (get_or g.now.ranks i zero_rank)) g.now.n) page.new }
{
    page.put_lines(
        g.n as usize,
        |page, i| put_rank(page, g.dead, i as u8, g.ranks[i]),
    );
}

// Writes the listing of a run from the buffer's start on, and answers its length.
pub fn list(text: &mut [u8], events: u32, answers: &[u32], s: State) -> usize
    requires n_in_bounds { 50 + 44 * events + 57 * s.group.n ≤ length text.old }
    requires events_in_bounds { 3 * events ≤ length answers.now }
    requires events_bound { events ≤ 4096 }
    requires n_bound { s.group.n ≤ 64 }
    ensures { Wrote text.old 0 (listing events answers.now s) text.new result }
{
    let mut page = Page { text, at: 0 };
    put_first(&mut page, s.group.n, events);
    put_events(&mut page, answers, events as usize);
    put_ranks(&mut page, &s.group);
    put_last(&mut page, s.group.count);
    page.at
}

// What the schedule program prints: runs the file that was read, and writes its listing or its refusal.
pub fn report(file: &[u8], answers: &mut [u32], text: &mut [u8]) -> usize
    requires answers_room_in_bounds { answers_room ≤ length answers.old }
    requires text_room_in_bounds { text_room ≤ length text.old }
    ensures wrote { Wrote text.old 0 (report file.now answers.old) text.new result }
    ensures answers_after { answers.new ≡ (run file.now answers.old).answers }
{
    let mut s = state::empty_state();
    match schedule::run_on(file, answers, &mut s) {
        Ok(()) => list(text, files::events_in(file), answers, s),
        Err(refusal) => {
            let mut page = Page { text, at: 0 };
            put_refused(&mut page, refusal.number());
            page.at
        }
    }
}
