// The sheet: a lent slice of bytes that holds animations, contents, targets, texture names and keys.
#![tactic(auto)]

mod layout;
mod rows;
mod view;

pub use layout::{length_ok, sheet_ok};
pub use rows::{
    ANIMATION_BYTES, Animation, CONTENT_BYTES, Content, HEAD, KEY_BYTES, ROW_NAME, TARGET_BYTES,
    Target, animation_count, content_count, contents_at, key_count, sheet_bytes, target_at,
    target_count, targets_at, texture_count, textures_at,
};
pub use view::Sheet;
