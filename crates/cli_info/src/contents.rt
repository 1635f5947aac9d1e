// The contents of a sheet, and what they reach in a book.
ghost use Rattle.std.specs.Prelude.{◌<◌};
ghost use Rattle.sheet.specs.Sizes.{content_count};

use book::Book;
use channel::Reached;
use cli_facts::Files;
use cli_page::Out;
use cli_printed::Owner;
use sheet::Sheet;

// A content's type.
#[derive(Clone, Copy, Debug, PartialEq, Eq)]
pub enum ContentType {
    Pane,
    Material,
    User,
    PaneExt,
    StateMachine,
}

impl ContentType {
    // The type that a content's row has by its number, which is at most 4 in a checked sheet.
    pub fn of(number: usize) -> ContentType {
        match number {
            0 => ContentType::Pane,
            1 => ContentType::Material,
            2 => ContentType::User,
            3 => ContentType::PaneExt,
            _ => ContentType::StateMachine,
        }
    }

    // Whose channels a content of the type reaches. The other types reach nothing in a book.
    pub fn owner(self) -> Option<Owner> {
        match self {
            ContentType::Pane | ContentType::PaneExt => Some(Owner::Pane),
            ContentType::Material => Some(Owner::Material),
            ContentType::User | ContentType::StateMachine => None,
        }
    }

    fn word(self) -> &'static str {
        match self {
            ContentType::Pane => "pane",
            ContentType::Material => "material",
            ContentType::User => "user",
            ContentType::PaneExt => "pane_ext",
            ContentType::StateMachine => "state_machine",
        }
    }
}

// A content's type and name.
pub fn say_named(out: &mut Out, sheet: Sheet<'_>, i: usize)
    requires { i < content_count sheet.bytes.now }
{
    let kind = ContentType::of(sheet.content(i).kind);
    out.word(" ", "type", kind.word());
    let at = sheet::contents_at(sheet.bytes) + i * sheet::CONTENT_BYTES + sheet::ROW_NAME;
    cli_printed::name(out, " ", "name", field::name_at(sheet.bytes, at));
}

// The row of the book that has the content's name, among its panes or its materials as the type says.
fn reached(files: Files<'_>, i: usize) -> Option<Reached>
    requires { i < content_count files.sheet.bytes.now }
{
    let Files { sheet, book } = files;
    let s = sheet.bytes;
    let owner = ContentType::of(sheet.content(i).kind).owner()?;
    let name = sheet::contents_at(s) + i * sheet::CONTENT_BYTES + sheet::ROW_NAME;
    match owner {
        Owner::Pane => channel::labels(&book)
            .find(s, name)
            .map(|row| Reached::Pane(row)),
        Owner::Material => channel::material_names(&book)
            .find(s, name)
            .map(|row| Reached::Material(row)),
    }
}

fn say_reached(out: &mut Out, files: Files<'_>, i: usize)
    requires { i < content_count files.sheet.bytes.now }
{
    let (part, row) = match reached(files, i) {
        Some(Reached::Pane(row)) => ("pane", row),
        Some(Reached::Material(row)) => ("material", row),
        None => {
            out.word(" reaches ", "reaches", "nothing");
            return;
        }
    };
    out.lead(" reaches");
    out.word(" ", "reaches", part);
    out.count(" ", "row", row as u64);
}

// A content's row, and what it reaches where there is a book.
fn say_content(out: &mut Out, sheet: Sheet<'_>, book: Option<Book<'_>>, i: usize)
    requires { i < content_count sheet.bytes.now }
{
    out.begin();
    out.count("content ", "content", i as u64);
    out.count(
        " animation ",
        "animation",
        sheet.content(i).animation as u64,
    );
    say_named(out, sheet, i);
    if let Some(book) = book {
        say_reached(out, Files { sheet, book }, i);
    }
    out.end();
}

pub fn say_contents(out: &mut Out, sheet: Sheet<'_>, book: Option<Book<'_>>) {
    for i in 0..sheet.content_count() {
        say_content(out, sheet, book, i);
    }
}

fn warn(out: &mut Out, path: &[u8], sheet: Sheet<'_>, i: usize)
    requires { i < content_count sheet.bytes.now }
{
    out.begin();
    out.bytes("warning: ", "file", path);
    out.count(": content ", "content", i as u64);
    say_named(out, sheet, i);
    out.word(": ", "warning", "the book has nothing of that name");
    out.end();
}

// A warning for each content that names a pane or a material that the book hasn't. Other types reach nothing anyway.
pub fn say_unreached(out: &mut Out, path: &[u8], files: Files<'_>) {
    for i in 0..files.sheet.content_count() {
        let kind = ContentType::of(files.sheet.content(i).kind);
        if kind.owner().is_some() && reached(files, i).is_none() {
            warn(out, path, files.sheet, i);
        }
    }
}
