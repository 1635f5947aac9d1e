// Resolving: the override, else the book's; a pane, a material's layer, a material slot's texture name.
// Stays with the slices apart outside, and with the number of a refusal in the results: so C lends and reads them.
ghost use Rattle.std.specs.Prelude.{◌≡◌, ◌<◌, IfOk, OnOk};
ghost use Rattle.laws.specs.Refusal.{declined};
ghost use Rattle.laws.specs.Rows.{declines};
ghost use Rattle.book.specs.Sizes.{pane_count, material_count};
ghost use Rattle.channel.specs.Channel.{material_layers};
ghost use Rattle.edit.specs.Keys.{keys};
ghost use Rattle.menu_checks.specs.Lent.{keys_of};
ghost use Rattle.menu_readings.specs.Lent.{MenuOf};
ghost use Rattle.menu_readings.specs.Rows.{resolve_pane_table, resolve_srt_table, texture_name_table};
ghost use Rattle.menu_readings.specs.Readings.{resolve_pane_of, resolve_srt_of, texture_name_of, no_transform, no_pane, no_layer};

use crate::active_in;
use crate::checked::check_menu;
use book::Book;
use channel::MATERIAL_LAYERS;
use float::{Srt, Vector2, Vector3};
use laws::refusal::ACCEPTED;
use laws::{Refusal, ask};
use menu_checks::Lent;
use player::Player;
use reading::Menu;
use resolve::{Transform, resolve_alpha, resolve_transform, resolve_visible};
use sheet::Sheet;

// A pane's transform, visibility and alpha, the override or else the book's.
#[repr(C)]
#[derive(Clone, Copy)]
pub struct ResolvedPane {
    pub refusal: u8,
    pub visible: bool,
    pub alpha: f32,
    pub transform: Transform,
}

// A material layer's SRT likewise.
#[repr(C)]
#[derive(Clone, Copy)]
pub struct ResolvedSrt {
    pub refusal: u8,
    pub srt: Srt,
}

fn no_transform() -> Transform
    ensures { result ≡ no_transform }
{
    let v3 = Vector3 {
        x: 0.0,
        y: 0.0,
        z: 0.0,
    };
    let v2 = Vector2 { x: 0.0, y: 0.0 };
    Transform {
        translation: v3,
        rotation: v3,
        scale: v2,
        size: v2,
    }
}

fn no_pane(n: u8) -> ResolvedPane
    ensures { result ≡ no_pane n }
{
    ResolvedPane {
        refusal: n,
        visible: false,
        alpha: 0.0,
        transform: no_transform(),
    }
}

#[tactic(auto, using(laws::specs::Refused::refused), unfolding(crate::specs::Rows::resolve_pane_table, crate::specs::Rows::pane_rows, laws::specs::Rows::declines, laws::specs::Rows::unless))]
fn check_pane<'a>(lent: Lent<'a>, b: &'a [u8], p: &Player, pane: usize) -> Result<Menu<'a>, Refusal>
    ensures declined { declined result ≡ declines (resolve_pane_table lent.entry.sheet.now b.now p.now (keys_of lent.entry) pane) }
    ensures lent { IfOk result (λ m. MenuOf m lent.entry b.now) }
    ensures pane { OnOk result (pane < pane_count b.now) }
{
    let menu = check_menu(lent, b, p)?;
    ask(pane < menu.book.pane_count(), Refusal::NoSuchRow)?;
    Ok(menu)
}

// A pane's transform, visibility and alpha. Refusals 1 to 5, 7.
#[tactic(auto, using(laws::specs::Refused::refused), unfolding(crate::specs::Readings::resolve_pane_of, crate::specs::Readings::pane_of))]
pub fn resolve_pane(
    p: Player,
    s: &[u8],
    b: &[u8],
    frames: &[f32],
    values: &[f32],
    slopes: &[f32],
    pane: u16,
) -> ResolvedPane
    ensures { result ≡ resolve_pane_of s.now b.now p (keys frames.now values.now slopes.now) pane }
{
    let i = pane as usize;
    let lent = Lent::new(s, frames, values, slopes);
    match check_pane(lent, b, &p, i) {
        Ok(menu) => {
            let active = active_in(&p);
            ResolvedPane {
                refusal: ACCEPTED,
                visible: resolve_visible(&menu, active, i),
                alpha: resolve_alpha(&menu, active, i),
                transform: resolve_transform(&menu, active, i),
            }
        }
        Err(e) => no_pane(e.number()),
    }
}

// The rows of a material's layer, and of its texture slot: there are as many of each.
#[tactic(auto, using(laws::specs::Refused::refused), unfolding(crate::specs::Rows::resolve_srt_table, crate::specs::Rows::layer_rows, laws::specs::Rows::declines, laws::specs::Rows::unless))]
fn check_layer<'a>(
    lent: Lent<'a>,
    b: &'a [u8],
    p: &Player,
    material: usize,
    layer: usize,
) -> Result<Menu<'a>, Refusal>
    ensures declined { declined result ≡ declines (resolve_srt_table lent.entry.sheet.now b.now p.now (keys_of lent.entry) material layer) }
    ensures lent { IfOk result (λ m. MenuOf m lent.entry b.now) }
    ensures material { OnOk result (material < material_count b.now) }
    ensures layer { OnOk result (layer < material_layers) }
{
    let menu = check_menu(lent, b, p)?;
    ask(
        material < menu.book.material_count() && layer < MATERIAL_LAYERS,
        Refusal::NoSuchRow,
    )?;
    Ok(menu)
}

fn no_srt(n: u8) -> ResolvedSrt
    ensures { result ≡ no_layer n }
{
    let v = Vector2 { x: 0.0, y: 0.0 };
    ResolvedSrt {
        refusal: n,
        srt: Srt {
            translate: v,
            rotate: 0.0,
            scale: v,
        },
    }
}

// The SRT of a material's layer. Refusals 1 to 5, 7.
#[tactic(auto, using(laws::specs::Refused::refused), unfolding(crate::specs::Readings::resolve_srt_of, crate::specs::Readings::layer_of))]
pub fn resolve_srt(
    p: Player,
    s: &[u8],
    b: &[u8],
    frames: &[f32],
    values: &[f32],
    slopes: &[f32],
    material: u16,
    layer: u16,
) -> ResolvedSrt
    ensures { result ≡ resolve_srt_of s.now b.now p (keys frames.now values.now slopes.now) material layer }
{
    let i = material as usize;
    let k = layer as usize;
    let lent = Lent::new(s, frames, values, slopes);
    match check_layer(lent, b, &p, i, k) {
        Ok(menu) => ResolvedSrt {
            refusal: ACCEPTED,
            srt: resolve::resolve_srt(&menu, active_in(&p), i, k),
        },
        Err(e) => no_srt(e.number()),
    }
}

// The 24-byte name of a material's texture slot: the sheet's where it is overridden, else the book's. It is part of one of these two, so it outlives the keys.
// Refusals 1 to 5, 7.
#[tactic(auto, using(laws::specs::Refused::refused), unfolding(crate::specs::Readings::texture_name_of, crate::specs::Rows::texture_name_table, crate::specs::Rows::resolve_srt_table))]
pub fn find_texture_name<'a>(
    p: &Player,
    s: &'a [u8],
    b: &'a [u8],
    frames: &[f32],
    values: &[f32],
    slopes: &[f32],
    material: u16,
    slot: u16,
) -> Result<&'a [u8], Refusal>
    ensures declined { declined result ≡ declines (texture_name_table s.now b.now p.now (keys frames.now values.now slopes.now) material slot) }
    ensures name { IfOk result (λ n. n.now ≡ texture_name_of s.now b.now p.now (keys frames.now values.now slopes.now) material slot) }
{
    let i = material as usize;
    let k = slot as usize;
    let menu = check_layer(Lent::new(s, frames, values, slopes), b, p, i, k)?;
    let sheet = Sheet { bytes: s };
    let book = Book { bytes: b };
    let keys = menu.ready.keys;
    Ok(resolve::texture_name(sheet, book, keys, active_in(p), i, k))
}

// The same, and empty where the call is declined.
#[tactic(auto, using(laws::specs::Refused::refused), unfolding(crate::specs::Readings::texture_name_of))]
pub fn texture_name<'a>(
    p: Player,
    s: &'a [u8],
    b: &'a [u8],
    frames: &[f32],
    values: &[f32],
    slopes: &[f32],
    material: u16,
    slot: u16,
) -> &'a [u8]
    ensures { result.now ≡ texture_name_of s.now b.now p (keys frames.now values.now slopes.now) material slot }
{
    match find_texture_name(&p, s, b, frames, values, slopes, material, slot) {
        Ok(name) => name,
        Err(_) => &s[0..0],
    }
}
