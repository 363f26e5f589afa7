// The lines of a listing: numbers are decimal without leading zeros, fields one space apart, and each line ends in one line feed.
#![tactic(auto)]

ghost use Rattle.std.specs.Prelude.{◌≡◌, ◌++◌, ◌+◌, ◌*◌, ◌<◌, ◌≤◌, length};
ghost use Rattle.rank.specs.Triples.{code};
ghost use Rattle.text.specs.Text.{feed, field};
ghost use Rattle.text.specs.Pages.{HasRoom, Puts};
ghost use Rattle.lines.specs.Lines.{event_line, first_line, last_line, living, rank_line, refused_line, verdict_field};

use rank::{Rank, Triple};
use text::Page;

// First line: version, n, events.
pub fn put_first(page: &mut Page, n: u8, events: u32)
    requires { HasRoom page.old 37 }
    ensures { Puts page.old (first_line n events) page.new }
{
    page.put_letters(b"agr");
    page.put_three(1, n as u32, events);
}

// Event line: place, answer, sent, moved.
pub fn put_event(page: &mut Page, answers: &[u32], k: usize)
    requires page_in_bounds { HasRoom page.old 44 }
    requires k_in_bounds { 3 * k + 3 ≤ length answers.now }
    requires k_bound { k < 4096 }
    ensures { Puts page.old (event_line answers.now k) page.new }
{
    let place = 3 * k;
    page.put_number(k as u32);
    page.put_three(answers[place], answers[place + 1], answers[place + 2]);
}

// A number of the verdict, with `-` unless decided.
fn put_verdict(page: &mut Page, phase: u8, number: u32)
    requires { HasRoom page.old 11 }
    ensures { Puts page.old (verdict_field phase number) page.new }
{
    if phase == rank::DECIDED {
        page.put_field(number);
    } else {
        page.put_letters(b" -");
    }
}

// The end of a rank line: phase, result, code.
fn put_phase(page: &mut Page, phase: u8, res: Triple)
    requires { HasRoom page.old 34 }
    ensures { Puts page.old (field phase ++ (verdict_field phase res.word ++ (verdict_field phase (code res) ++ feed))) page.new }
{
    page.put_field(phase as u32);
    put_verdict(page, phase, res.word);
    put_verdict(page, phase, res.code());
    page.put_byte(b'\n');
}

// 1 if living.
fn living(dead: u64, i: u8) -> u32
    requires { i < 64 }
    ensures { result ≡ living dead i }
{
    if sets::member(dead, i) { 0 } else { 1 }
}

// Rank line: rank, 1 if living, phase, result, code.
pub fn put_rank(page: &mut Page, dead: u64, i: u8, r: Rank)
    requires page_in_bounds { HasRoom page.old 57 }
    requires i_bound { i < 64 }
    ensures { Puts page.old (rank_line dead i r) page.new }
{
    page.put_byte(b'r');
    page.put_field(i as u32);
    page.put_field(living(dead, i));
    put_phase(page, r.phase, r.result);
}

// Last line: messages in flight.
pub fn put_last(page: &mut Page, count: u8)
    requires { HasRoom page.old 13 }
    ensures { Puts page.old (last_line count) page.new }
{
    page.put_byte(b'm');
    page.put_end(count as u32);
}

// The only line of a refused run.
pub fn put_refused(page: &mut Page, number: u32)
    requires { HasRoom page.old 19 }
    ensures { Puts page.old (refused_line number) page.new }
{
    page.put_letters(b"refused");
    page.put_end(number);
}
