// A sheet that was checked once: whoever holds one needs no index proof of its own.
ghost use Rattle.sheet.specs.Checked.{Checked};

use crate::layout::sheet_ok;
use crate::rows::{
    ANIMATION_BYTES, Animation, CONTENT_BYTES, Content, HEAD, ROW_NAME, TARGET_BYTES, Target,
    contents_at, target_at, targets_at, textures_at,
};
use field::{NAME_BYTES, byte_at, name_at, u16_at};
use laws::{Refusal, ask};

// The lent bytes of a sheet, its key rules apart.
#[derive(Clone, Copy)]
pub struct Sheet<'a> {
    pub bytes: &'a [u8],
    pub ghost checked: { Checked bytes.now },
}

impl<'a> Sheet<'a> {
    ghost use Rattle.std.specs.Prelude.{◌≡◌, ◌∷◌, [], ◌<◌, IfOk};
    ghost use Rattle.laws.specs.Refusal.{declined};
    ghost use Rattle.laws.specs.Rows.{row, declines};
    ghost use Rattle.sheet.specs.Sizes.{animation_count, content_count, target_count, key_count, texture_count, frames_at, points_at};
    ghost use Rattle.sheet.specs.Rows.{animation_row, content_row, target_row, next_name, texture_name};
    ghost use Rattle.sheet.specs.Sheet.{sheet_ok};

    // Row 1 of the table of refusals.
    #[tactic(auto, using(crate::specs::Checked::checked, laws::specs::Refused::refused), unfolding(laws::specs::Rows::declines, laws::specs::Rows::unless))]
    pub fn new(bytes: &'a [u8]) -> Result<Sheet<'a>, Refusal>
        ensures declined { declined result ≡ declines (row 1 (sheet_ok bytes.now) ∷ []) }
        ensures same { IfOk result (λ s. s.bytes.now ≡ bytes.now) }
    {
        ask(sheet_ok(bytes), Refusal::SheetLayout)?;
        Ok(Sheet { bytes })
    }

    pub fn animation_count(&self) -> usize
        ensures { result ≡ animation_count self.now.bytes.now }
    {
        crate::rows::animation_count(self.bytes)
    }

    pub fn content_count(&self) -> usize
        ensures { result ≡ content_count self.now.bytes.now }
    {
        crate::rows::content_count(self.bytes)
    }

    pub fn target_count(&self) -> usize
        ensures { result ≡ target_count self.now.bytes.now }
    {
        crate::rows::target_count(self.bytes)
    }

    pub fn key_count(&self) -> usize
        ensures { result ≡ key_count self.now.bytes.now }
    {
        crate::rows::key_count(self.bytes)
    }

    pub fn texture_count(&self) -> usize
        ensures { result ≡ texture_count self.now.bytes.now }
    {
        crate::rows::texture_count(self.bytes)
    }

    #[tactic(auto, unfolding(crate::specs::Rows::animation_row))]
    pub fn animation(&self, i: usize) -> Animation
        requires { i < animation_count self.now.bytes.now }
        ensures { result ≡ animation_row self.now.bytes.now i }
    {
        let at = HEAD + i * ANIMATION_BYTES;
        Animation {
            frames: u16_at(self.bytes, at) as u16,
            looping: byte_at(self.bytes, at + 2) == 1,
            next: byte_at(self.bytes, at + 3) == 1,
        }
    }

    #[tactic(auto, unfolding(crate::specs::Rows::content_row))]
    pub fn content(&self, i: usize) -> Content
        requires { i < content_count self.now.bytes.now }
        ensures { result ≡ content_row self.now.bytes.now i }
    {
        let at = contents_at(self.bytes) + i * CONTENT_BYTES;
        Content {
            animation: byte_at(self.bytes, at),
            kind: byte_at(self.bytes, at + 1),
        }
    }

    #[tactic(auto, unfolding(crate::specs::Rows::target_row))]
    pub fn target(&self, i: usize) -> Target
        requires { i < target_count self.now.bytes.now }
        ensures { result ≡ target_row self.now.bytes.now i }
    {
        target_at(self.bytes, targets_at(self.bytes) + i * TARGET_BYTES)
    }

    #[tactic(auto, unfolding(crate::specs::Rows::next_name))]
    pub fn next_name(&self, i: usize) -> &'a [u8]
        requires { i < animation_count self.now.bytes.now }
        ensures { result.now ≡ next_name self.now.bytes.now i }
    {
        name_at(self.bytes, HEAD + i * ANIMATION_BYTES + ROW_NAME)
    }

    #[tactic(auto, unfolding(crate::specs::Rows::texture_name))]
    pub fn texture_name(&self, i: usize) -> &'a [u8]
        requires { i < texture_count self.now.bytes.now }
        ensures { result.now ≡ texture_name self.now.bytes.now i }
    {
        name_at(self.bytes, textures_at(self.bytes) + i * NAME_BYTES)
    }

    // Where the keys' frames start.
    pub fn frames_at(&self) -> usize
        ensures { result ≡ frames_at self.now.bytes.now }
    {
        textures_at(self.bytes) + self.texture_count() * NAME_BYTES
    }

    // Where their points start.
    pub fn points_at(&self) -> usize
        ensures { result ≡ points_at self.now.bytes.now }
    {
        self.frames_at() + self.key_count() * 4
    }
}
