// What a call is lent: a sheet and three arrays of keys, nothing checked. Its checks hand back views of the same slices.
use crate::check_sound;
use book::Book;
use keys::Ready;
use laws::Refusal;
use player::Player;
use reading::Menu;
use sheet::Sheet;

#[derive(Clone, Copy)]
pub struct Lent<'a> {
    pub sheet: &'a [u8],
    pub frames: &'a [f32],
    pub values: &'a [f32],
    pub slopes: &'a [f32],
}

impl<'a> Lent<'a> {
    ghost use Rattle.std.specs.Prelude.{◌≡◌, true, IfOk, OnOk};
    ghost use Rattle.laws.specs.Refusal.{declined};
    ghost use Rattle.laws.specs.Rows.{declines};
    ghost use Rattle.edit.specs.Keys.{keys};
    ghost use Rattle.player.specs.Player.{player_ok};
    ghost use Rattle.menu_checks.specs.Rows.{broken_rows, keys_rows, book_rows, state_rows, behind};
    ghost use Rattle.menu_checks.specs.Lent.{keys_of, IsOf};

    // Stays over slices apart: C lends them so, and this makes one value of them.
    pub fn new(sheet: &'a [u8], frames: &'a [f32], values: &'a [f32], slopes: &'a [f32]) -> Lent<'a>
        ensures sheet { result.sheet.now ≡ sheet.now }
        ensures keys { keys_of result ≡ keys frames.now values.now slopes.now }
    {
        Lent {
            sheet,
            frames,
            values,
            slopes,
        }
    }

    // Rows 1, 3 and 4: sheet and keys.
    #[tactic(auto, using(laws::specs::Refused::refused), unfolding(laws::specs::Rows::declines, laws::specs::Rows::unless))]
    pub fn check_keys(self) -> Result<Ready<'a>, Refusal>
        ensures declined { declined result ≡ declines (keys_rows self.entry.sheet.now (keys_of self.entry)) }
        ensures lent { IfOk result (λ r. IsOf r self.entry) }
    {
        let sheet = Sheet::new(self.sheet)?;
        Ready::lent(sheet, self.frames, self.values, self.slopes)
    }

    // Rows 1 to 4: sheet, book and keys.
    #[tactic(auto, using(laws::specs::Refused::refused), unfolding(laws::specs::Rows::declines, laws::specs::Rows::unless))]
    pub fn check_book(self, book: &'a [u8]) -> Result<Menu<'a>, Refusal>
        ensures declined { declined result ≡ declines (book_rows self.entry.sheet.now book.now (keys_of self.entry)) }
        ensures lent { IfOk result (λ m. IsOf m.ready self.entry) }
        ensures book { IfOk result (λ m. m.book.bytes.now ≡ book.now) }
    {
        let sheet = Sheet::new(self.sheet)?;
        let book = Book::new(book)?;
        let ready = Ready::lent(sheet, self.frames, self.values, self.slopes)?;
        Ok(Menu { ready, book })
    }

    // Rows 1 and 3 to 5: sheet, keys and player.
    #[tactic(auto, using(laws::specs::Refused::refused, crate::proofs::Behind::behind_first, crate::proofs::Behind::state_parts), unfolding(laws::specs::Rows::declines, laws::specs::Rows::unless))]
    pub fn check_state(self, p: &Player) -> Result<Ready<'a>, Refusal>
        ensures declined { declined result ≡ declines (state_rows self.entry.sheet.now p.now (keys_of self.entry)) }
        ensures parts { declined result ≡ behind (declines (keys_rows self.entry.sheet.now (keys_of self.entry))) (declines (broken_rows self.entry.sheet.now p.now (keys_of self.entry))) }
        ensures lent { IfOk result (λ r. IsOf r self.entry) }
        ensures player { OnOk result (player_ok self.entry.sheet.now p.now ≡ true) }
    {
        let ready = self.check_keys()?;
        check_sound(p, &ready)?;
        Ok(ready)
    }
}
