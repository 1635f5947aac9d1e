// The override of a channel, else what the book has.
ghost use Rattle.std.specs.Prelude.{◌≡◌, ◌+◌, ◌<◌};
ghost use Rattle.book.specs.Sizes.{pane_count, material_count};
ghost use Rattle.channel.specs.Channel.{channel_count, material_layers};
ghost use Rattle.resolve.specs.Resolve.{or_number, or_shown, transform_of, visible_of, alpha_of, srt_of};
ghost use Rattle.resolve.specs.Row.{InRow, channel_in, number_in_row, vector2_in_row, vector3_in_row};

use crate::Transform;
use book::Book;
use channel::{ALPHA, Reached, VISIBLE, of_material, of_pane};
use float::{Srt, Vector2, Vector3};
use reading::{At, Menu, Reading};

// A reading's number, or what the book has.
// Stays a match: a method that gives the number or none would be the same match, with `unwrap_or` on top.
pub fn or_number(r: Reading, base: f32) -> f32
    ensures { result ≡ or_number r base }
{
    match r {
        Reading::Number(v) => v,
        _ => base,
    }
}

// Whether a reading shows, or what the book has.
// Stays a match: a method that gives the bool or none would be the same match, with `unwrap_or` on top.
pub fn or_shown(r: Reading, base: bool) -> bool
    ensures { result ≡ or_shown r base }
{
    match r {
        Reading::Shown(b) => b,
        _ => base,
    }
}

// Channel k of a row of the book.
#[tactic(auto, using(channel::specs::Within::pane_below, channel::specs::Within::material_below))]
fn channel_in(book: &Book<'_>, row: Reached, k: usize) -> usize
    requires { InRow book.now.bytes.now row k }
    ensures channel { result ≡ channel_in book.now.bytes.now row k }
    ensures below { result < channel_count book.now.bytes.now }
{
    match row {
        Reached::Pane(p) => of_pane(p, k),
        Reached::Material(m) => of_material(book, m, k),
    }
}

// That channel, over what the book has.
fn number(menu: &Menu<'_>, active: Option<At>, row: Reached, k: usize, base: f32) -> f32
    requires { InRow menu.now.book.bytes.now row k }
    ensures { result ≡ number_in_row menu.now.ready.sheet.bytes.now menu.now.book.bytes.now menu.now.ready.keys.frames.now menu.now.ready.keys.values.now menu.now.ready.keys.slopes.now active row k base }
{
    or_number(
        menu.read_channel(active, channel_in(&menu.book, row, k)),
        base,
    )
}

// It and the one after it.
fn vector2(menu: &Menu<'_>, active: Option<At>, row: Reached, k: usize, base: Vector2) -> Vector2
    requires first { InRow menu.now.book.bytes.now row k }
    requires last { InRow menu.now.book.bytes.now row (k + 1) }
    ensures { result ≡ vector2_in_row menu.now.ready.sheet.bytes.now menu.now.book.bytes.now menu.now.ready.keys.frames.now menu.now.ready.keys.values.now menu.now.ready.keys.slopes.now active row k base }
{
    Vector2 {
        x: number(menu, active, row, k, base.x),
        y: number(menu, active, row, k + 1, base.y),
    }
}

// It and the two after it.
fn vector3(menu: &Menu<'_>, active: Option<At>, row: Reached, k: usize, base: Vector3) -> Vector3
    requires first { InRow menu.now.book.bytes.now row k }
    requires second { InRow menu.now.book.bytes.now row (k + 1) }
    requires last { InRow menu.now.book.bytes.now row (k + 2) }
    ensures { result ≡ vector3_in_row menu.now.ready.sheet.bytes.now menu.now.book.bytes.now menu.now.ready.keys.frames.now menu.now.ready.keys.values.now menu.now.ready.keys.slopes.now active row k base }
{
    Vector3 {
        x: number(menu, active, row, k, base.x),
        y: number(menu, active, row, k + 1, base.y),
        z: number(menu, active, row, k + 2, base.z),
    }
}

// The Rust's PaneAnimation::resolve_transform.
#[tactic(auto, unfolding(crate::specs::Resolve::transform_of, crate::specs::Resolve::pane_number))]
pub fn resolve_transform(menu: &Menu<'_>, active: Option<At>, p: usize) -> Transform
    requires { p < pane_count menu.now.book.bytes.now }
    ensures { result ≡ transform_of menu.now.ready.sheet.bytes.now menu.now.book.bytes.now menu.now.ready.keys.frames.now menu.now.ready.keys.values.now menu.now.ready.keys.slopes.now active p }
{
    let base = menu.book.pane(p);
    let row = Reached::Pane(p);
    Transform {
        translation: vector3(menu, active, row, 0, base.translation),
        rotation: vector3(menu, active, row, 3, base.rotation),
        scale: vector2(menu, active, row, 6, base.scale),
        size: vector2(menu, active, row, 8, base.size),
    }
}

#[tactic(auto, unfolding(crate::specs::Resolve::visible_of))]
pub fn resolve_visible(menu: &Menu<'_>, active: Option<At>, p: usize) -> bool
    requires { p < pane_count menu.now.book.bytes.now }
    ensures { result ≡ visible_of menu.now.ready.sheet.bytes.now menu.now.book.bytes.now menu.now.ready.keys.frames.now menu.now.ready.keys.values.now menu.now.ready.keys.slopes.now active p }
{
    let c = channel_in(&menu.book, Reached::Pane(p), VISIBLE);
    or_shown(menu.read_channel(active, c), menu.book.pane(p).visible)
}

#[tactic(auto, unfolding(crate::specs::Resolve::alpha_of, crate::specs::Resolve::pane_number))]
pub fn resolve_alpha(menu: &Menu<'_>, active: Option<At>, p: usize) -> f32
    requires { p < pane_count menu.now.book.bytes.now }
    ensures { result ≡ alpha_of menu.now.ready.sheet.bytes.now menu.now.book.bytes.now menu.now.ready.keys.frames.now menu.now.ready.keys.values.now menu.now.ready.keys.slopes.now active p }
{
    let base = menu.book.pane(p).alpha as f32 / 255.0;
    number(menu, active, Reached::Pane(p), ALPHA, base)
}

// The Rust's TextureSrtAnimation::resolve.
#[tactic(auto, unfolding(crate::specs::Resolve::srt_of, crate::specs::Resolve::material_number))]
pub fn resolve_srt(menu: &Menu<'_>, active: Option<At>, m: usize, layer: usize) -> Srt
    requires material { m < material_count menu.now.book.bytes.now }
    requires layer { layer < material_layers }
    ensures { result ≡ srt_of menu.now.ready.sheet.bytes.now menu.now.book.bytes.now menu.now.ready.keys.frames.now menu.now.ready.keys.values.now menu.now.ready.keys.slopes.now active m layer }
{
    let base = menu.book.material_srt(m, layer);
    let row = Reached::Material(m);
    let k = layer * 5;
    Srt {
        translate: vector2(menu, active, row, k, base.translate),
        rotate: number(menu, active, row, k + 2, base.rotate),
        scale: vector2(menu, active, row, k + 3, base.scale),
    }
}
