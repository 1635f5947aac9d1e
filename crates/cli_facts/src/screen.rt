// What the commands look at: a sheet and a book, and a player with what it plays.
use crate::cascade::Cascade;
use crate::readings::Overrides;
use book::Book;
use cli_printed::{Owner, accepted};
use float::Srt;
use laws::Refusal;
use menu_checks::Lent;
use menu_readings::ResolvedPane;
use player::Player;
use reading::Reading;
use sheet::Sheet;

// What `info`, `frames` and `replay` are asked about.
#[derive(Clone, Copy)]
pub struct Files<'a> {
    pub sheet: Sheet<'a>,
    pub book: Book<'a>,
}

// A player, the book that it is shown in, and the sheet and the keys that it plays. The book alone is checked: the outward calls look at the rest.
#[derive(Clone, Copy)]
pub struct Screen<'a> {
    pub player: &'a Player,
    pub book: Book<'a>,
    pub lent: Lent<'a>,
}

// What the player reads, or why the call is declined. Stays over slices apart at each call: the outward calls are lent them so, as C lends them.
impl<'a> Screen<'a> {
    // One channel of a pane or of a material.
    pub fn read(self, owner: Owner, i: u16, c: u16) -> Result<Reading, Refusal> {
        let (p, b) = (*self.player, self.book.bytes);
        let Lent {
            sheet,
            frames,
            values,
            slopes,
        } = self.lent;
        let one = match owner {
            Owner::Pane => menu_readings::read_pane(p, sheet, b, frames, values, slopes, i, c),
            Owner::Material => {
                menu_readings::read_material(p, sheet, b, frames, values, slopes, i, c)
            }
        };
        accepted(one.refusal)?;
        Ok(one.reading)
    }

    // Every channel, into tables that are lent: a table that is handed back is copied, which costs a small menu more than its reading.
    pub fn read_into(self, marks: &mut [u8], numbers: &mut [f32]) -> Result<(), Refusal> {
        accepted(menu_readings::read_all(
            *self.player,
            self.lent.sheet,
            self.book.bytes,
            self.lent.frames,
            self.lent.values,
            self.lent.slopes,
            marks,
            numbers,
        ))
    }

    // Every channel.
    #[tactic(auto, unfolding(channel::specs::Channel::channel_count))]
    pub fn read_all(self) -> Result<Overrides, Refusal> {
        let n = channel::channel_count(&self.book);
        let mut all = Overrides::none();
        self.read_into(&mut all.marks[..n], &mut all.numbers[..n])?;
        Ok(all)
    }

    // Every pane under its parents, into tables that are lent.
    pub fn cascade_into(
        self,
        visible: &mut [u8],
        alpha: &mut [f32],
        influence: &mut [f32],
    ) -> Result<(), Refusal> {
        accepted(menu_readings::cascade(
            *self.player,
            self.lent.sheet,
            self.book.bytes,
            self.lent.frames,
            self.lent.values,
            self.lent.slopes,
            visible,
            alpha,
            influence,
        ))
    }

    // Every pane under its parents.
    pub fn cascade(self) -> Result<Cascade, Refusal> {
        let n = self.book.pane_count();
        let mut all = Cascade::none();
        self.cascade_into(
            &mut all.visible[..n],
            &mut all.alpha[..n],
            &mut all.influence[..n],
        )?;
        Ok(all)
    }

    pub fn resolve_pane(self, pane: u16) -> Result<ResolvedPane, Refusal> {
        let resolved = menu_readings::resolve_pane(
            *self.player,
            self.lent.sheet,
            self.book.bytes,
            self.lent.frames,
            self.lent.values,
            self.lent.slopes,
            pane,
        );
        accepted(resolved.refusal)?;
        Ok(resolved)
    }

    pub fn resolve_srt(self, material: u16, layer: u16) -> Result<Srt, Refusal> {
        let resolved = menu_readings::resolve_srt(
            *self.player,
            self.lent.sheet,
            self.book.bytes,
            self.lent.frames,
            self.lent.values,
            self.lent.slopes,
            material,
            layer,
        );
        accepted(resolved.refusal)?;
        Ok(resolved.srt)
    }

    // The name that a texture slot of a material resolves to.
    pub fn texture_name(self, material: u16, slot: u16) -> Result<&'a [u8], Refusal> {
        menu_readings::find_texture_name(
            self.player,
            self.lent.sheet,
            self.book.bytes,
            self.lent.frames,
            self.lent.values,
            self.lent.slopes,
            material,
            slot,
        )
    }
}
