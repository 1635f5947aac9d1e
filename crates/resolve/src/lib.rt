// Channels resolved over the book, and the cascade over its panes.
#![tactic(auto)]

mod name;
mod over;
mod own;
mod rows;

use float::{Vector2, Vector3};
pub use name::texture_name;
pub use over::{resolve_alpha, resolve_srt, resolve_transform, resolve_visible};
pub use rows::cascade;

// The Rust's ResolvedPaneTransform.
#[repr(C)]
#[derive(Clone, Copy)]
pub struct Transform {
    pub translation: Vector3,
    pub rotation: Vector3,
    pub scale: Vector2,
    pub size: Vector2,
}

// What the cascade gives a pane: whether it is shown, its alpha, and the influence that it hands its children.
#[derive(Clone, Copy, Debug)]
pub struct Cascaded {
    pub visible: bool,
    pub alpha: f32,
    pub influence: f32,
}
