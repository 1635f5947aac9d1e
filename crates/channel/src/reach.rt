// The row of the book that a content reaches, by its name.
ghost use Rattle.std.specs.Prelude.{◌≡◌, ◌+◌, ◌<◌, ◌≤◌, true, length, IfSome};
ghost use Rattle.std.specs.Option.{ForSome};
ghost use Rattle.field.specs.Name.{name_bytes, names_ok, find_name};
ghost use Rattle.book.specs.Sizes.{pane_count, material_count, pane_bytes, material_bytes, panes_at, materials_at};
ghost use Rattle.field.specs.Index.{Indexed};

use crate::Reached;
use book::{Book, MATERIAL_BYTES, PANE_BYTES};
use sheet::{CONTENT_BYTES, ROW_NAME, Sheet};

// A content, and the row that it reaches while an animation is active.
#[derive(Clone, Copy, Debug)]
pub struct Held {
    pub content: usize,
    pub reached: Option<Reached>,
}

// A book, with an index of the names of its panes and one of those of its materials, where there is one: it pays where many names are searched for.
#[derive(Clone, Copy)]
pub struct Names<'b, 'i> {
    pub book: Book<'b>,
    pub panes: Option<&'i [u8]>,
    pub materials: Option<&'i [u8]>,
    pub ghost labels: { ForSome panes (λ i. Indexed book.bytes.now panes_at pane_bytes (pane_count book.bytes.now) i.now) },
    pub ghost names: { ForSome materials (λ i. Indexed book.bytes.now (materials_at book.bytes.now) material_bytes (material_count book.bytes.now) i.now) },
}

// The names of a book's panes.
pub fn labels<'a>(book: &Book<'a>) -> field::Names<'a>
    ensures table { result.table.now ≡ book.now.bytes.now }
    ensures base { result.base ≡ panes_at }
    ensures stride { result.stride ≡ pane_bytes }
    ensures rows { result.rows ≡ pane_count book.now.bytes.now }
    ensures few { result.rows < 255 }
{
    field::Names {
        table: book.bytes,
        base: book::HEAD,
        stride: PANE_BYTES,
        rows: book.pane_count(),
    }
}

// Those of its materials.
pub fn material_names<'a>(book: &Book<'a>) -> field::Names<'a>
    ensures table { result.table.now ≡ book.now.bytes.now }
    ensures base { result.base ≡ materials_at book.now.bytes.now }
    ensures stride { result.stride ≡ material_bytes }
    ensures rows { result.rows ≡ material_count book.now.bytes.now }
    ensures few { result.rows < 255 }
{
    field::Names {
        table: book.bytes,
        base: book::materials_at(book.bytes),
        stride: MATERIAL_BYTES,
        rows: book.material_count(),
    }
}

// The row with the name at `at` of a sheet: by the index where there is one, else by the rows. Stays a search: there is no heap for a map.
fn find(names: &field::Names<'_>, index: Option<&[u8]>, sheet: &[u8], at: usize) -> Option<usize>
    requires distinct { names_ok names.now.table.now names.now.base names.now.stride names.now.rows ≡ true }
    requires index { IfSome index (λ i. Indexed names.now.table.now names.now.base names.now.stride names.now.rows i.now) }
    requires within { at + name_bytes ≤ length sheet.now }
    ensures { result ≡ find_name names.now.table.now names.now.base names.now.stride names.now.rows sheet.now at }
{
    match index {
        Some(index) => names.find_indexed(index, sheet, at),
        None => names.find(sheet, at),
    }
}

// Stays a content's number with its bound: a value of sheet and number would be made anew for each content.
impl<'b, 'i> Names<'b, 'i> {
    ghost use Rattle.std.specs.Prelude.{◌≡◌, ◌<◌, IfSome};
    ghost use Rattle.sheet.specs.Sizes.{content_count};
    ghost use Rattle.channel.specs.Channel.{content_reach, active_reach};
    ghost use Rattle.channel.specs.Held.{held_for, Holds};

    #[tactic(auto, using(book::specs::Checked::label_fields, book::specs::Checked::name_fields), unfolding(crate::specs::Channel::content_reach, crate::specs::Channel::pane_named, crate::specs::Channel::material_named))]
    fn content_reach(&self, sheet: &Sheet<'_>, c: usize) -> Option<Reached>
        requires { c < content_count sheet.now.bytes.now }
        ensures { result ≡ content_reach sheet.now.bytes.now self.now.book.bytes.now c }
    {
        let name = sheet::contents_at(sheet.bytes) + c * CONTENT_BYTES + ROW_NAME;
        let content = sheet.content(c);
        if content.reaches_pane() {
            find(&labels(&self.book), self.panes, sheet.bytes, name).map(|p| Reached::Pane(p))
        } else if content.reaches_material() {
            let names = material_names(&self.book);
            find(&names, self.materials, sheet.bytes, name).map(|m| Reached::Material(m))
        } else {
            None
        }
    }

    // The same where the content is one of animation a's.
    #[tactic(auto, unfolding(crate::specs::Channel::active_reach))]
    fn active_reach(&self, sheet: &Sheet<'_>, a: usize, c: usize) -> Option<Reached>
        requires { c < content_count sheet.now.bytes.now }
        ensures { result ≡ active_reach sheet.now.bytes.now self.now.book.bytes.now a c }
    {
        if sheet.content(c).animation == a {
            self.content_reach(sheet, c)
        } else {
            None
        }
    }

    // Content c with what it reaches, searched for.
    fn search_for(&self, sheet: &Sheet<'_>, a: usize, c: usize) -> Held
        requires { c < content_count sheet.now.bytes.now }
        ensures { result ≡ held_for sheet.now.bytes.now self.now.book.bytes.now a c }
    {
        Held {
            content: c,
            reached: self.active_reach(sheet, a, c),
        }
    }

    // Content c with what it reaches: what is held already, if that is content c's. Contents of targets never fall, so each name is searched for once.
    // Inlined, the search apart: a call for each target would put what is held into memory and take it back.
    #[inline(always)]
    pub fn held_for(&self, sheet: &Sheet<'_>, a: usize, c: usize, held: Option<Held>) -> Held
        requires content { c < content_count sheet.now.bytes.now }
        requires held { IfSome held (Holds sheet.now.bytes.now self.now.book.bytes.now a) }
        ensures { result ≡ held_for sheet.now.bytes.now self.now.book.bytes.now a c }
    {
        match held {
            Some(h) if h.content == c => h,
            _ => self.search_for(sheet, a, c),
        }
    }
}
