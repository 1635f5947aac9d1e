// A command line: its words and options, the files that it names, its whole numbers, and what is said where it is wrong.
#![tactic(auto)]

mod arguments;
mod errors;
mod file;
mod help;
mod span;
mod told;

pub use arguments::{
    Arguments, argument, argument_count, has_empty, has_option, is_option, join, unknown_option,
};
pub use errors::{begin_error, end_error, file_error, missing, too_many, word_error};
pub use file::{LONGEST, Unusable, Unwritten, read, try_read, write};
pub use help::{say_version, usage};
pub use span::{needed, span_of, whole_argument};
pub use told::{progress, progress_end};
