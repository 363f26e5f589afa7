// The schedule file: its checks and its events.
#![tactic(auto, unfolding(crate::specs::Files::byte_at, crate::specs::Files::short_at, crate::specs::Files::number_at, crate::specs::Files::event_at, crate::specs::Files::events_in, crate::specs::Files::wrong_mark, crate::specs::Files::wrong_version, crate::specs::Files::broken, crate::specs::Files::header))]

ghost use Rattle.std.specs.Prelude.{◌≡◌, ◌+◌, ◌*◌, ◌≤◌, length};
ghost use Rattle.answers.specs.Answers.{answer_of};
ghost use Rattle.files.specs.Files.{broken, event_at, events_in, header, number_at, short_at, wrong_mark};

use answers::Refusal;
use events::Event;

// What a good file's first bytes and its length say: the group's size and the number of events.
#[derive(Clone, Copy)]
pub struct Header {
    pub n: u8,
    pub events: u32,
}

// A number of two bytes, least byte first.
fn short_at(file: &[u8], i: usize) -> u16
    requires { i + 2 ≤ length file.now }
    ensures { result ≡ short_at file.now i }
{
    u16::from_le_bytes([file[i], file[i + 1]])
}

// A number of four bytes, least byte first.
fn number_at(file: &[u8], i: usize) -> u32
    requires { i + 4 ≤ length file.now }
    ensures { result ≡ number_at file.now i }
{
    u32::from_le_bytes([file[i], file[i + 1], file[i + 2], file[i + 3]])
}

// The event at a place of the schedule.
pub fn event_at(file: &[u8], k: usize) -> Event
    requires { 15 + 9 * k ≤ length file.now }
    ensures { result ≡ event_at file.now k }
{
    let at = 6 + 9 * k;
    Event {
        kind: file[at] as u32,
        a: number_at(file, at + 1),
        b: number_at(file, at + 5),
    }
}

// Whether the first three bytes are not AGR.
fn wrong_mark(file: &[u8]) -> bool
    requires { 6 ≤ length file.now }
    ensures { result ≡ wrong_mark file.now }
{
    !file.starts_with(b"AGR")
}

// Whether the last event is broken.
fn broken(file: &[u8]) -> bool
    requires { 6 ≤ length file.now }
    ensures { result ≡ broken file.now }
{
    (file.len() - 6) % 9 != 0
}

// The number of whole events.
pub fn events_in(file: &[u8]) -> u32
    requires in_bounds { 6 ≤ length file.now }
    requires file_len_bound { length file.now ≤ 36870 }
    ensures { result ≡ events_in file.now }
{
    ((file.len() - 6) / 9) as u32
}

// The checks of a file, in document 01's order.
pub fn read_header(file: &[u8]) -> Result<Header, Refusal>
    ensures { result ≡ header file.now }
{
    if file.len() < 6 {
        return Err(Refusal::NoHeader);
    }
    if wrong_mark(file) {
        return Err(Refusal::WrongMark);
    }
    if short_at(file, 3) != 1 {
        return Err(Refusal::WrongVersion);
    }
    if tree::wrong_size(file[5] as u32) {
        return Err(Refusal::BadSize);
    }
    if 36870 < file.len() {
        return Err(Refusal::TooLong);
    }
    if broken(file) {
        return Err(Refusal::Broken);
    }
    Ok(Header {
        n: file[5],
        events: events_in(file),
    })
}

// Document 01's number for a header.
pub fn number_of(h: Result<Header, Refusal>) -> u32
    ensures { result ≡ answer_of h }
{
    match h {
        Ok(_) => 0,
        Err(refusal) => refusal.number(),
    }
}
