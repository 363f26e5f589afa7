// The pictures of what the living ranks of a run see, and what the program `views` prints of a file.
#![tactic(auto)]

ghost use Rattle.std.specs.Prelude.{◌≡◌, ◌+◌, ◌*◌, ◌<◌, ◌≤◌, get_or, length};
ghost use Rattle.state.specs.States.{zero_rank};
ghost use Rattle.text.specs.Text.{Wrote, lines};
ghost use Rattle.text.specs.Pages.{HasRoom, Puts};
ghost use Rattle.schedule.specs.Runs.{run};
ghost use Rattle.listing.specs.Listings.{answers_room};
ghost use Rattle.pictures.specs.Pictures.{picture_room};
ghost use Rattle.drawing.specs.Drawings.{drawing, drawing_room, rank_picture, rank_pictures, rank_room};

use lines::put_refused;
use pictures::put_picture;
use state::{Group, State};
use text::Page;

// The picture of a living rank's view; nothing for a dead rank.
fn put_rank(page: &mut Page, g: &Group, i: u8)
    requires page_in_bounds { HasRoom page.old picture_room }
    requires n_bound { g.now.n ≤ 64 }
    requires i_bound { i < 64 }
    ensures { Puts page.old (rank_picture g.now.n g.now.dead i (get_or g.now.ranks i zero_rank).marks) page.new }
{
    if sets::member(g.dead, i) {
        return;
    }
    put_picture(page, g.n, g.ranks[i as usize].marks);
}

// The pictures, ascending by rank.
fn put_ranks(page: &mut Page, g: &Group)
    requires page_in_bounds { HasRoom page.old (g.now.n * rank_room g.now.n) }
    requires n_bound { g.now.n ≤ 64 }
    ensures { Puts page.old (lines (λ i. rank_picture g.now.n g.now.dead i (get_or g.now.ranks i zero_rank).marks) g.now.n) page.new }
{
    page.put_lines(g.n as usize, |page, i| put_rank(page, g, i as u8));
}

// Writes the pictures of a state from the buffer's start on, and answers their length.
fn draw(text: &mut [u8], s: State) -> usize
    requires drawing_room_in_bounds { drawing_room ≤ length text.old }
    requires n_bound { s.group.n ≤ 64 }
    ensures { Wrote text.old 0 (rank_pictures s) text.new result }
{
    let mut page = Page { text, at: 0 };
    put_ranks(&mut page, &s.group);
    page.at
}

// What the program prints: runs the file that was read, and writes its pictures or its refusal.
// It stands beside listing::report, and shares the arm of a refusal alone: one function over what an accepted run prints would ask more clauses
// of that than the arm has lines.
pub fn report(file: &[u8], answers: &mut [u32], text: &mut [u8]) -> usize
    requires answers_room_in_bounds { answers_room ≤ length answers.old }
    requires drawing_room_in_bounds { drawing_room ≤ length text.old }
    ensures wrote { Wrote text.old 0 (drawing file.now answers.old) text.new result }
    ensures answers_after { answers.new ≡ (run file.now answers.old).answers }
{
    let mut s = state::empty_state();
    match schedule::run_on(file, answers, &mut s) {
        Ok(()) => draw(text, s),
        Err(refusal) => {
            let mut page = Page { text, at: 0 };
            put_refused(&mut page, refusal.number());
            page.at
        }
    }
}
