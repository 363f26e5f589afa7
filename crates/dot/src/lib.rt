// The lines of a picture.
#![tactic(auto)]

ghost use Rattle.std.specs.Prelude.{◌+◌, ◌<◌, ◌≤◌};
ghost use Rattle.text.specs.Pages.{HasRoom, Puts};
ghost use Rattle.dot.specs.Dot.{edge, edge_line, node_line, opening_line};

use text::Page;

// The first line: the digraph's name is v and the group size.
pub fn put_opening(page: &mut Page, n: u8)
    requires { HasRoom page.old 22 }
    ensures { Puts page.old (opening_line n) page.new }
{
    page.put_letters(b"digraph v");
    page.put_number(n as u32);
    page.put_letters(b" {\n");
}

// The line of an unmarked rank, the root's with a box; nothing for a marked one.
pub fn put_node_line(page: &mut Page, marks: u64, p: u8)
    requires page_in_bounds { HasRoom page.old 24 }
    requires p_bound { p < 64 }
    ensures { Puts page.old (node_line marks p) page.new }
{
    if sets::member(marks, p) {
        return;
    }
    let is_root = tree::parent_of(tree::FLAT, 1, marks, p).is_none();
    page.put_number(p as u32);
    if is_root {
        page.put_letters(b" [shape=box];\n");
    } else {
        page.put_letters(b";\n");
    }
}

// An edge from a rank to its parent.
fn put_edge(page: &mut Page, p: u8, up: u8)
    requires { HasRoom page.old 26 }
    ensures { Puts page.old (edge p up) page.new }
{
    page.put_number(p as u32);
    page.put_letters(b" -> ");
    page.put_number(up as u32);
    page.put_letters(b";\n");
}

// The edge line of an unmarked rank with a parent; nothing for any other.
pub fn put_edge_line(page: &mut Page, marks: u64, p: u8)
    requires page_in_bounds { HasRoom page.old 26 }
    requires p_bound { p < 64 }
    ensures { Puts page.old (edge_line marks p) page.new }
{
    let marked = sets::member(marks, p);
    if marked {
        return;
    }
    if let Some(up) = tree::parent_of(tree::FLAT, 1, marks, p) {
        put_edge(page, p, up);
    }
}
