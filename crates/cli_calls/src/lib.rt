// A line of a list of calls, its comment taken off: a verb, its whole numbers or names, its numbers. What can't be read is told by the place of the word and what is wrong with it.
#![tactic(auto)]

mod argument;
mod call;
mod named;
mod unread;
mod verb;

use argument::Arguments;
use book::Book;
pub use call::{Action, Call, Query};
pub use unread::{Fault, Unread};

// The call that a line writes; one that is empty writes none. Panes and materials may go by the names that the book has.
pub fn call_of<'a>(line: &'a [u8], book: Book<'_>) -> Result<Option<Call<'a>>, Unread> {
    let mut args = Arguments::new(line);
    let Some(verb) = args.word() else {
        return Ok(None);
    };
    let call = verb::call(&mut args, book, verb)?;
    args.end()?;
    Ok(Some(call))
}
