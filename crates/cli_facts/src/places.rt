// The channels of a book by name: whose they are, and their names there.
ghost use Rattle.std.specs.Prelude.{◌<◌};
ghost use Rattle.channel.specs.Channel.{channel_count};
ghost use Rattle.channel.specs.Place.{PlacedIn};

use book::Book;
use channel::Place;
use cli_page::Out;
use cli_printed::Owner;

// The pane or the material that has channel c of the book, and the channel's number there.
#[tactic(auto, using(channel::specs::Place::placed))]
pub fn place_of(book: Book<'_>, c: usize) -> Place
    requires { c < channel_count book.bytes.now }
    ensures { PlacedIn book.entry.bytes.now result }
{
    channel::place_of(&book, c)
}

// `pane NAME CHANNEL`, or `material NAME CHANNEL`.
pub fn say_place(out: &mut Out, book: Book<'_>, place: Place)
    requires { PlacedIn book.bytes.now place }
{
    match place {
        Place::Pane(i, c) => {
            cli_printed::pane(out, "pane ", book, i);
            cli_printed::name_channel(out, Owner::Pane, c);
        }
        Place::Material(i, c) => {
            cli_printed::material(out, "material ", book, i);
            cli_printed::name_channel(out, Owner::Material, c);
        }
    }
}
