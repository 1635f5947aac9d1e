// The sizes of a sheet and where its tables start, of any bytes that have a head, and its rows by value. What a checked sheet has is in `view.rt`.
ghost use Rattle.std.specs.Prelude.{◌≡◌, ◌+◌, ◌≤◌, length};
ghost use Rattle.sheet.specs.Sizes.{animation_count, content_count, target_count, key_count, texture_count, head_bytes, target_bytes, contents_at, targets_at, textures_at, sheet_bytes};
ghost use Rattle.sheet.specs.Rows.{target_at};

use field::{NAME_BYTES, byte_at, u16_at};

// How many bytes the sizes take, and each row.
pub const HEAD: usize = 12;

pub const ANIMATION_BYTES: usize = 28;

pub const CONTENT_BYTES: usize = 28;

pub const TARGET_BYTES: usize = 14;

// A key's frame, and its point.
pub const KEY_BYTES: usize = 12;

// Where the name stands in an animation's row and in a content's.
pub const ROW_NAME: usize = 4;

#[derive(Clone, Copy, Debug)]
pub struct Animation {
    pub frames: u16,
    pub looping: bool,
    // Stays a flag: a row is read by value, and the name of the next is lent by `Sheet::next_name`.
    pub next: bool,
}

#[derive(Clone, Copy, Debug)]
pub struct Content {
    pub animation: usize,
    // Stays a number, at most 4 in a checked sheet: the definitions read a row off any bytes, where it may be larger.
    pub kind: usize,
}

impl Content {
    ghost use Rattle.std.specs.Prelude.{◌≡◌, ◌||◌, eqb};

    // Whether it reaches the pane with its name: of type Pane or PaneExt.
    pub fn reaches_pane(&self) -> bool
        ensures { result ≡ (eqb self.now.kind 0 || eqb self.now.kind 3) }
    {
        self.kind == 0 || self.kind == 3
    }

    // Whether it reaches the material of its name: of type Material.
    pub fn reaches_material(&self) -> bool
        ensures { result ≡ eqb self.now.kind 1 }
    {
        self.kind == 1
    }
}

#[derive(Clone, Copy, Debug)]
pub struct Target {
    pub content: usize,
    pub layer: usize,
    pub raw: usize,
    pub code: u32,
    // Stays a number, at most 2 in a checked sheet: the definitions read a row off any bytes. Where a curve is read it is a `curve::Kind`.
    pub curve: usize,
    pub first: usize,
    pub count: usize,
}

// ---- sizes, and where the tables start

pub fn animation_count(s: &[u8]) -> usize
    requires { head_bytes ≤ length s.now }
    ensures { result ≡ animation_count s.now }
{
    u16_at(s, 0)
}

pub fn content_count(s: &[u8]) -> usize
    requires { head_bytes ≤ length s.now }
    ensures { result ≡ content_count s.now }
{
    u16_at(s, 2)
}

pub fn target_count(s: &[u8]) -> usize
    requires { head_bytes ≤ length s.now }
    ensures { result ≡ target_count s.now }
{
    u16_at(s, 4)
}

pub fn key_count(s: &[u8]) -> usize
    requires { head_bytes ≤ length s.now }
    ensures { result ≡ key_count s.now }
{
    u16_at(s, 6)
}

pub fn texture_count(s: &[u8]) -> usize
    requires { head_bytes ≤ length s.now }
    ensures { result ≡ texture_count s.now }
{
    u16_at(s, 8)
}

pub fn contents_at(s: &[u8]) -> usize
    requires { head_bytes ≤ length s.now }
    ensures { result ≡ contents_at s.now }
{
    HEAD + u16_at(s, 0) * ANIMATION_BYTES
}

pub fn targets_at(s: &[u8]) -> usize
    requires { head_bytes ≤ length s.now }
    ensures { result ≡ targets_at s.now }
{
    HEAD + u16_at(s, 0) * ANIMATION_BYTES + u16_at(s, 2) * CONTENT_BYTES
}

pub fn textures_at(s: &[u8]) -> usize
    requires { head_bytes ≤ length s.now }
    ensures { result ≡ textures_at s.now }
{
    HEAD + u16_at(s, 0) * ANIMATION_BYTES
        + u16_at(s, 2) * CONTENT_BYTES
        + u16_at(s, 4) * TARGET_BYTES
}

// How long a sheet of these sizes is.
pub fn sheet_bytes(s: &[u8]) -> usize
    requires { head_bytes ≤ length s.now }
    ensures { result ≡ sheet_bytes s.now }
{
    HEAD + u16_at(s, 0) * ANIMATION_BYTES
        + u16_at(s, 2) * CONTENT_BYTES
        + u16_at(s, 4) * TARGET_BYTES
        + u16_at(s, 8) * NAME_BYTES
        + u16_at(s, 6) * KEY_BYTES
}

// The target's row at a place, for loops that keep where the targets start.
pub fn target_at(s: &[u8], at: usize) -> Target
    requires { at + target_bytes ≤ length s.now }
    ensures { result ≡ target_at s.now at }
{
    Target {
        content: u16_at(s, at),
        layer: byte_at(s, at + 2),
        raw: byte_at(s, at + 3),
        code: field::u32_at(s, at + 4),
        curve: byte_at(s, at + 8),
        first: u16_at(s, at + 10),
        count: u16_at(s, at + 12),
    }
}
