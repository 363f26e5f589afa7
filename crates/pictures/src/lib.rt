// A view as a DOT digraph, written and read back. Entry points for callers are write and read; they refuse bad input and require nothing.
#![tactic(auto)]

ghost use Rattle.std.specs.Prelude.{◌≡◌, true, ◌+◌, ◌*◌, ◌≤◌, length};
ghost use Rattle.text.specs.Text.{Wrote, lines};
ghost use Rattle.text.specs.Pages.{HasRoom, Puts};
ghost use Rattle.dot.specs.Dot.{edge_line, node_line};
ghost use Rattle.pictures.specs.Pictures.{picture, picture_room};
ghost use Rattle.pictures.specs.Writing.{reply, room_for, wrong_marks, writing, written};
ghost use Rattle.pictures.specs.Reading.{Reads, viewed};

use answers::Refusal;
use dot::{put_edge_line, put_node_line, put_opening};
use text::Page;

// What put_picture asks for.
const ROOM: usize = 3352;

// The size of a group, and the marks of a view of it.
#[derive(Clone, Copy, Debug, PartialEq, Eq, Hash)]
pub struct View {
    pub n: u32,
    pub marks: u64,
}

// The node lines, ascending.
fn put_nodes(page: &mut Page, n: u8, marks: u64)
    requires page_in_bounds { HasRoom page.old (24 * n) }
    requires n_bound { n ≤ 64 }
    ensures { Puts page.old (lines (node_line marks) n) page.new }
{
    page.put_lines(n as usize, |page, p| put_node_line(page, marks, p as u8));
}

// The edge lines, ascending.
fn put_edges(page: &mut Page, n: u8, marks: u64)
    requires page_in_bounds { HasRoom page.old (26 * n) }
    requires n_bound { n ≤ 64 }
    ensures { Puts page.old (lines (edge_line marks) n) page.new }
{
    page.put_lines(n as usize, |page, p| put_edge_line(page, marks, p as u8));
}

// A view's picture, on a page with room for ten digits to a number.
pub fn put_picture(page: &mut Page, n: u8, marks: u64)
    requires page_in_bounds { HasRoom page.old picture_room }
    requires n_bound { n ≤ 64 }
    ensures { Puts page.old (picture n marks) page.new }
{
    put_opening(page, n);
    put_nodes(page, n, marks);
    put_edges(page, n, marks);
    page.put_letters(b"}\n");
}

// A view's picture at the start of a buffer; answers its length.
fn draw(drawn: &mut [u8], n: u8, marks: u64) -> usize
    requires picture_room_in_bounds { picture_room ≤ length drawn.old }
    requires n_bound { n ≤ 64 }
    ensures { Wrote drawn.old 0 (picture n marks) drawn.new result }
{
    let mut page = Page { text: drawn, at: 0 };
    put_picture(&mut page, n, marks);
    page.at
}

// Whether marks lie outside the group or leave no rank.
fn wrong_marks(n: u8, marks: u64) -> bool
    requires { n ≤ 64 }
    ensures { result ≡ wrong_marks n marks }
{
    let group = sets::below(n);
    (sets::minus(marks, group) != 0) | (sets::minus(group, marks) == 0)
}

// Writes the picture of a view, where the buffer has room for it.
fn fit(n: u8, marks: u64, text: &mut [u8]) -> Result<usize, Refusal>
    requires { n ≤ 64 }
    ensures { reply (written result) text.new ≡ room_for (picture n marks) text.old }
{
    let mut drawn = [0u8; ROOM];
    let length = draw(&mut drawn, n, marks);
    if text.len() < length {
        return Err(Refusal::NoRoom);
    }
    text[..length].copy_from_slice(&drawn[..length]);
    Ok(length)
}

// Entry point: writes the picture of a view from the buffer's start on and answers its length. Refuses a bad size, marks outside the group or
// that leave no rank, and a buffer that is too short; it has written nothing then.
pub fn write(n: u32, marks: u64, text: &mut [u8]) -> Result<usize, Refusal>
    ensures { reply (written result) text.new ≡ writing n marks text.old }
{
    if tree::wrong_size(n) {
        return Err(Refusal::BadSize);
    }
    if wrong_marks(n as u8, marks) {
        return Err(Refusal::NotInOrder);
    }
    fit(n as u8, marks, text)
}

// Whether a text is the picture of a view.
fn is_picture(text: &[u8], n: u8, marks: u64) -> bool
    requires { n ≤ 64 }
    ensures { (result ≡ true → text.now ≡ picture n marks) × (text.now ≡ picture n marks → result ≡ true) }
{
    let mut drawn = [0u8; ROOM];
    let length = draw(&mut drawn, n, marks);
    text == &drawn[..length]
}

// Entry point: the view whose picture a text is, byte for byte. It proposes a view, and accepts where that view's picture is the text; any
// other text is no picture.
pub fn read(text: &[u8]) -> Result<View, Refusal>
    ensures { Reads text.now (viewed result) }
{
    let Some(n) = proposing::size_in(text) else {
        return Err(Refusal::NoPicture);
    };
    if tree::wrong_size(n as u32) {
        return Err(Refusal::NoPicture);
    }
    let marks = proposing::marks_in(text, n);
    if wrong_marks(n, marks) {
        return Err(Refusal::NoPicture);
    }
    if !is_picture(text, n, marks) {
        return Err(Refusal::NoPicture);
    }
    Ok(View { n: n as u32, marks })
}
