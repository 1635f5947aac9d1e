// Loading a sheet, and the name of the animation that follows one.
// Stays as C has it: an outward call is lent its slices apart, and its refusal is a number.
// A refusal is told by a match at the call's end: a function over a `Result` would take what the call writes, too.
ghost use Rattle.std.specs.Prelude.{◌≡◌, IfOk};
ghost use Rattle.laws.specs.Refusal.{declined};
ghost use Rattle.laws.specs.Rows.{declines};
ghost use Rattle.edit.specs.Keys.{keys};
ghost use Rattle.menu.specs.Rows.{next_name_table};
ghost use Rattle.menu.specs.Calls.{gave, loaded_of, next_name_of};

use crate::playing::Played;
use laws::refusal::ACCEPTED;
use laws::{Refusal, ask};
use player::Player;
use sheet::Sheet;

// The keys of a sheet into three lent arrays, with a fresh player. Refusals 1, 3, 4.
#[tactic(auto, unfolding(crate::specs::Calls::loaded_of))]
pub fn load(s: &[u8], frames: &mut [f32], values: &mut [f32], slopes: &mut [f32]) -> Played
    ensures { gave result (keys frames.new values.new slopes.new) ≡ loaded_of s.now (keys frames.old values.old slopes.old) }
{
    let refusal = match keys::load_keys(s, frames, values, slopes) {
        Ok(()) => ACCEPTED,
        Err(e) => e.number(),
    };
    Played {
        refusal,
        player: Player::fresh(),
    }
}

// The 24-byte name that follows an animation. Refusals 1, 6.
#[tactic(auto, using(laws::specs::Refused::refused), unfolding(crate::specs::Calls::next_name_of, crate::specs::Rows::next_name_table, laws::specs::Rows::declines, laws::specs::Rows::unless))]
pub fn find_next_name<'a>(s: &'a [u8], animation: u16) -> Result<&'a [u8], Refusal>
    ensures declined { declined result ≡ declines (next_name_table s.now animation) }
    ensures name { IfOk result (λ n. n.now ≡ next_name_of s.now animation) }
{
    let sheet = Sheet::new(s)?;
    let i = animation as usize;
    ask(i < sheet.animation_count(), Refusal::NoAnimation)?;
    Ok(sheet.next_name(i))
}

// The same; empty where the sheet is declined or has no such animation.
#[tactic(auto, using(laws::specs::Refused::refused), unfolding(crate::specs::Calls::next_name_of))]
pub fn next_name<'a>(s: &'a [u8], animation: u16) -> &'a [u8]
    ensures { result.now ≡ next_name_of s.now animation }
{
    match find_next_name(s, animation) {
        Ok(name) => name,
        Err(_) => &s[0..0],
    }
}
