// What the command line writes: a page of bytes that goes out when it is full or asked for, and lines that are text or JSON objects.
#![tactic(auto)]

mod bare;
mod member;
mod out;
mod page;

pub use out::{Out, Status};
pub use page::{PAGE, Page};
