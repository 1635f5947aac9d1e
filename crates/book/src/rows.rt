// The sizes of a book and where its materials start, of any bytes that have a head, and its rows by value. What a checked book has is in `view.rt`.
ghost use Rattle.std.specs.Prelude.{◌≡◌, ◌+◌, ◌≤◌, length};
ghost use Rattle.book.specs.Sizes.{pane_count, material_count, head_bytes, materials_at};
ghost use Rattle.book.specs.Rows.{vector2_at, vector3_at};
ghost use Rattle.field.specs.Read.{FiniteFrom};

use field::{f32_at, u16_at};
use float::{Vector2, Vector3};

// How many bytes the sizes take, and each row.
pub const HEAD: usize = 4;

pub const PANE_BYTES: usize = 72;

pub const MATERIAL_BYTES: usize = 156;

// The parent of a pane with none. Stays the format's number: the definitions of a row and of the cascade read it.
pub const NO_PARENT: usize = 65535;

#[derive(Clone, Copy)]
pub struct Pane {
    pub parent: usize,
    pub visible: bool,
    pub influences: bool,
    pub alpha: u8,
    // Stays two numbers, each at most 2 in a checked book: the calls that place corners take an origin by its number.
    pub horizontal: usize,
    pub vertical: usize,
    pub translation: Vector3,
    pub rotation: Vector3,
    pub scale: Vector2,
    pub size: Vector2,
}

impl Pane {
    ghost use Rattle.std.specs.Prelude.{◌≡◌};
    ghost use Rattle.book.specs.Rows.{parent_of};

    // The row of the pane above it. Stays a comparison: the format has a number for none.
    #[tactic(auto, unfolding(crate::specs::Rows::parent_of))]
    pub fn above(&self) -> Option<usize>
        ensures { result ≡ parent_of self.now.parent }
    {
        if self.parent == NO_PARENT {
            None
        } else {
            Some(self.parent)
        }
    }
}

// ---- sizes, and where the materials start

pub fn pane_count(b: &[u8]) -> usize
    requires { head_bytes ≤ length b.now }
    ensures { result ≡ pane_count b.now }
{
    u16_at(b, 0)
}

pub fn material_count(b: &[u8]) -> usize
    requires { head_bytes ≤ length b.now }
    ensures { result ≡ material_count b.now }
{
    u16_at(b, 2)
}

pub fn materials_at(b: &[u8]) -> usize
    requires { head_bytes ≤ length b.now }
    ensures { result ≡ materials_at b.now }
{
    HEAD + u16_at(b, 0) * PANE_BYTES
}

// ---- the vectors of a row

pub fn vector2_at(b: &[u8], at: usize) -> Vector2
    requires { (at + 8 ≤ length b.now) × FiniteFrom b.now at 2 }
    ensures { result ≡ vector2_at b.now at }
{
    Vector2 {
        x: f32_at(b, at),
        y: f32_at(b, at + 4),
    }
}

pub fn vector3_at(b: &[u8], at: usize) -> Vector3
    requires { (at + 12 ≤ length b.now) × FiniteFrom b.now at 3 }
    ensures { result ≡ vector3_at b.now at }
{
    Vector3 {
        x: f32_at(b, at),
        y: f32_at(b, at + 4),
        z: f32_at(b, at + 8),
    }
}
