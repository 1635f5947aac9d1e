// A book: its panes as a tree, and its materials.
ghost use Rattle.std.specs.Prelude.{◌<◌, IfSome};
ghost use Rattle.book.specs.Sizes.{pane_count, material_count};

use book::Book;
use cli_page::Out;

// What stands in front of the name of each texture slot of a material, and its key.
const TEXTURES: [(&str, &str); 3] = [
    (" texture_0 ", "texture_0"),
    (" texture_1 ", "texture_1"),
    (" texture_2 ", "texture_2"),
];

fn say_sizes(out: &mut Out, path: &[u8], book: Book<'_>) {
    out.begin();
    out.bytes("book ", "book", path);
    out.count(" bytes ", "bytes", book.bytes.len() as u64);
    out.count(" panes ", "panes", book.pane_count() as u64);
    out.count(" materials ", "materials", book.material_count() as u64);
    out.end();
}

// The parent of a pane, which is a smaller row. A root has the number of none, which is above all rows.
fn parent_of(book: Book<'_>, i: usize) -> Option<usize>
    requires { i < pane_count book.bytes.now }
    ensures { IfSome result (λ parent. parent < i) }
{
    let parent = book.pane(i).parent;
    if parent < i { Some(parent) } else { None }
}

// Two spaces for each parent that a pane has, one above the other.
fn indent(out: &mut Out, book: Book<'_>, i: usize)
    requires { i < pane_count book.bytes.now }
{
    let mut at = i;
    while let Some(parent) = parent_of(book, at) {
        out.lead("  ");
        at = parent;
    }
}

fn say_pane(out: &mut Out, book: Book<'_>, i: usize)
    requires { i < pane_count book.bytes.now }
{
    let row = book.pane(i);
    out.begin();
    out.count("pane ", "pane", i as u64);
    indent(out, book, i);
    cli_printed::name(out, " ", "name", book.pane_label(i));
    if let Some(parent) = parent_of(book, i) {
        out.count(" parent ", "parent", parent as u64);
    }
    cli_facts::say_shown(out, " ", row.visible);
    out.count(" alpha ", "alpha", row.alpha as u64);
    out.end();
}

// The texture of a slot; in text only where it has a name.
fn say_texture(out: &mut Out, before: &str, key: &str, name: &[u8]) {
    if out.json || name.iter().any(|b| *b != 0) {
        cli_printed::name(out, before, key, name);
    }
}

fn say_material(out: &mut Out, book: Book<'_>, i: usize)
    requires { i < material_count book.bytes.now }
{
    out.begin();
    out.count("material ", "material", i as u64);
    cli_printed::name(out, " ", "name", book.material_name(i));
    for (j, texture) in TEXTURES.iter().enumerate() {
        let (before, key) = *texture;
        say_texture(out, before, key, book.material_texture(i, j));
    }
    out.end();
}

// All of a book.
pub fn say_book(out: &mut Out, path: &[u8], book: Book<'_>) {
    say_sizes(out, path, book);
    for i in 0..book.pane_count() {
        say_pane(out, book, i);
    }
    for i in 0..book.material_count() {
        say_material(out, book, i);
    }
}
