// The verbs: what a line begins with, and the arguments that each takes.
// Stays a fact of each function, that the verb is read and nothing behind it: a type for it would be made and left again within one line.
ghost use Rattle.std.specs.Prelude.{◌≡◌, IfOk, IfNone};

use crate::argument::{Arguments, animation, channel, number, row, whole};
use crate::call::{Action, Call, Query};
use crate::unread::{Fault, Unread};
use book::Book;
use cli_printed::Owner;
use cli_words::unquoted;

const UNKNOWN: Unread = Unread {
    word: 0,
    fault: Fault::Unknown,
};

// One channel: `pane P CHANNEL` or `material M CHANNEL`.
fn read_one(args: &mut Arguments<'_>, book: Book<'_>, owner: Owner) -> Result<Query, Unread>
    requires { args.old.at ≡ 2 }
{
    let row = args.next(|w| row(book, owner, w))?;
    let channel = args.next(|w| channel(owner, w))?;
    Ok(Query::Read {
        owner,
        row,
        channel,
    })
}

fn read(args: &mut Arguments<'_>, book: Book<'_>) -> Result<Query, Unread>
    requires { args.old.at ≡ 1 }
{
    match args.word() {
        Some(b"pane") => read_one(args, book, Owner::Pane),
        Some(b"material") => read_one(args, book, Owner::Material),
        Some(b"all") => Ok(Query::ReadAll),
        _ => Err(UNKNOWN),
    }
}

fn resolve(args: &mut Arguments<'_>, book: Book<'_>) -> Result<Query, Unread>
    requires { args.old.at ≡ 1 }
{
    match args.word() {
        Some(b"pane") => Ok(Query::ResolvePane {
            pane: args.next(|w| row(book, Owner::Pane, w))?,
        }),
        Some(b"srt") => Ok(Query::ResolveSrt {
            material: args.next(|w| row(book, Owner::Material, w))?,
            layer: args.next(whole)?,
        }),
        _ => Err(UNKNOWN),
    }
}

// What a verb does to the player, where it does something.
fn action(args: &mut Arguments<'_>, verb: &[u8]) -> Result<Option<Action>, Unread>
    requires { args.old.at ≡ 1 }
    ensures unread { IfOk result (λ action. IfNone action (args.new.at ≡ 1)) }
{
    let action = match verb {
        b"play" => Action::Play {
            animation: args.next(animation)?,
        },
        b"pose" => Action::Pose {
            animation: args.next(animation)?,
            frame: args.next(number)?,
        },
        b"tick" => Action::Tick {
            seconds: args.next(number)?,
            fps: args.next(number)?,
        },
        b"key" => Action::Key {
            track: args.next(whole)?,
            key: args.next(whole)?,
            frame: args.next(number)?,
            value: args.next(number)?,
        },
        b"slope" => Action::Slope {
            track: args.next(whole)?,
            key: args.next(whole)?,
            slope: args.next(number)?,
        },
        b"undo" => Action::Undo,
        b"redo" => Action::Redo,
        b"open" => Action::Open {
            track: args.next(whole)?,
            key: args.next(whole)?,
        },
        b"drag" => Action::Drag {
            frame: args.next(number)?,
            value: args.next(number)?,
        },
        b"drop" => Action::Drop,
        b"abandon" => Action::Abandon,
        _ => return Ok(None),
    };
    Ok(Some(action))
}

// What a verb shows.
fn query(args: &mut Arguments<'_>, book: Book<'_>, verb: &[u8]) -> Result<Query, Unread>
    requires { args.old.at ≡ 1 }
{
    match verb {
        b"read" => read(args, book),
        b"resolve" => resolve(args, book),
        b"name" => Ok(Query::Name {
            material: args.next(|w| row(book, Owner::Material, w))?,
            slot: args.next(whole)?,
        }),
        b"next" => Ok(Query::Next {
            animation: args.next(whole)?,
        }),
        b"cascade" => Ok(Query::Cascade),
        b"keys" => Ok(Query::Keys),
        b"player" => Ok(Query::Player),
        _ => Err(UNKNOWN),
    }
}

// The call whose verb was read.
pub fn call<'a>(args: &mut Arguments<'a>, book: Book<'_>, verb: &[u8]) -> Result<Call<'a>, Unread>
    requires { args.old.at ≡ 1 }
{
    match verb {
        b"save" => {
            let path = args.word().map(unquoted);
            Ok(Call::Save(path.filter(|path| !path.is_empty())))
        }
        _ => match action(args, verb)? {
            Some(action) => Ok(Call::Make(action)),
            None => query(args, book, verb).map(|query| Call::Show(query)),
        },
    }
}
