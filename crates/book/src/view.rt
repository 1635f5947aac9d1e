// A book that was checked once: whoever holds one needs no index proof of its own.
ghost use Rattle.book.specs.Checked.{CheckedBook};

use crate::layout::book_ok;
use crate::rows::{HEAD, MATERIAL_BYTES, PANE_BYTES, Pane, materials_at, vector2_at, vector3_at};
use field::{NAME_BYTES, byte_at, f32_at, name_at, u16_at};
use float::Srt;
use laws::{Refusal, ask};

// The lent bytes of a book.
#[derive(Clone, Copy)]
pub struct Book<'a> {
    pub bytes: &'a [u8],
    pub ghost checked: { CheckedBook bytes.now },
}

impl<'a> Book<'a> {
    ghost use Rattle.std.specs.Prelude.{◌≡◌, ◌∷◌, [], ◌<◌, IfOk};
    ghost use Rattle.laws.specs.Refusal.{declined};
    ghost use Rattle.laws.specs.Rows.{row, declines};
    ghost use Rattle.book.specs.Sizes.{pane_count, material_count};
    ghost use Rattle.book.specs.Rows.{pane_row, material_srt, pane_label, material_name, material_texture};
    ghost use Rattle.book.specs.Book.{book_ok};

    // Row 2 of the table of refusals.
    // Stays beside the sheet's `new`: each has its own test, refusal and law, and what they share is `ask`.
    #[tactic(auto, using(crate::specs::Checked::checked_book, laws::specs::Refused::refused), unfolding(laws::specs::Rows::declines, laws::specs::Rows::unless))]
    pub fn new(bytes: &'a [u8]) -> Result<Book<'a>, Refusal>
        ensures declined { declined result ≡ declines (row 2 (book_ok bytes.now) ∷ []) }
        ensures same { IfOk result (λ b. b.bytes.now ≡ bytes.now) }
    {
        ask(book_ok(bytes), Refusal::BookLayout)?;
        Ok(Book { bytes })
    }

    pub fn pane_count(&self) -> usize
        ensures { result ≡ pane_count self.now.bytes.now }
    {
        crate::rows::pane_count(self.bytes)
    }

    pub fn material_count(&self) -> usize
        ensures { result ≡ material_count self.now.bytes.now }
    {
        crate::rows::material_count(self.bytes)
    }

    #[tactic(auto, unfolding(crate::specs::Rows::pane_row))]
    pub fn pane(&self, i: usize) -> Pane
        requires { i < pane_count self.now.bytes.now }
        ensures { result ≡ pane_row self.now.bytes.now i }
    {
        let at = HEAD + i * PANE_BYTES;
        let flags = byte_at(self.bytes, at + 26);
        Pane {
            parent: u16_at(self.bytes, at + NAME_BYTES),
            visible: flags % 2 == 1,
            influences: flags / 2 % 2 == 1,
            alpha: byte_at(self.bytes, at + 27) as u8,
            horizontal: byte_at(self.bytes, at + 28),
            vertical: byte_at(self.bytes, at + 29),
            translation: vector3_at(self.bytes, at + 32),
            rotation: vector3_at(self.bytes, at + 44),
            scale: vector2_at(self.bytes, at + 56),
            size: vector2_at(self.bytes, at + 64),
        }
    }

    #[tactic(auto, unfolding(crate::specs::Rows::pane_label))]
    pub fn pane_label(&self, i: usize) -> &'a [u8]
        requires { i < pane_count self.now.bytes.now }
        ensures { result.now ≡ pane_label self.now.bytes.now i }
    {
        name_at(self.bytes, HEAD + i * PANE_BYTES)
    }

    // SRT j of material i.
    #[tactic(auto, unfolding(crate::specs::Rows::material_srt))]
    pub fn material_srt(&self, i: usize, j: usize) -> Srt
        requires material { i < material_count self.now.bytes.now }
        requires srt { j < 3 }
        ensures { result ≡ material_srt self.now.bytes.now i j }
    {
        let at = materials_at(self.bytes) + i * MATERIAL_BYTES + 96 + j * 20;
        Srt {
            translate: vector2_at(self.bytes, at),
            rotate: f32_at(self.bytes, at + 8),
            scale: vector2_at(self.bytes, at + 12),
        }
    }

    #[tactic(auto, unfolding(crate::specs::Rows::material_name))]
    pub fn material_name(&self, i: usize) -> &'a [u8]
        requires { i < material_count self.now.bytes.now }
        ensures { result.now ≡ material_name self.now.bytes.now i }
    {
        name_at(self.bytes, materials_at(self.bytes) + i * MATERIAL_BYTES)
    }

    // Texture j of material i.
    #[tactic(auto, unfolding(crate::specs::Rows::material_texture))]
    pub fn material_texture(&self, i: usize, j: usize) -> &'a [u8]
        requires material { i < material_count self.now.bytes.now }
        requires texture { j < 3 }
        ensures { result.now ≡ material_texture self.now.bytes.now i j }
    {
        let names = materials_at(self.bytes) + i * MATERIAL_BYTES + NAME_BYTES;
        name_at(self.bytes, names + j * NAME_BYTES)
    }
}
