// A sheet: its sizes, its animations, and its textures.
ghost use Rattle.std.specs.Prelude.{◌<◌};
ghost use Rattle.sheet.specs.Sizes.{animation_count};

use crate::contents::say_contents;
use crate::tracks::say_tracks;
use book::Book;
use cli_page::Out;
use sheet::Sheet;

fn say_sizes(out: &mut Out, path: &[u8], sheet: Sheet<'_>) {
    out.begin();
    out.bytes("sheet ", "sheet", path);
    out.count(" bytes ", "bytes", sheet.bytes.len() as u64);
    out.count(" animations ", "animations", sheet.animation_count() as u64);
    out.count(" contents ", "contents", sheet.content_count() as u64);
    out.count(" tracks ", "tracks", sheet.target_count() as u64);
    out.count(" keys ", "keys", sheet.key_count() as u64);
    out.count(" textures ", "textures", sheet.texture_count() as u64);
    out.end();
}

fn say_looping(out: &mut Out, looping: bool) {
    if out.json {
        out.mark("", "looping", looping);
    } else {
        out.lead(if looping { " looping" } else { " ending" });
    }
}

// What the sheet says of an animation.
pub fn say_animation(out: &mut Out, sheet: Sheet<'_>, i: usize)
    requires { i < animation_count sheet.bytes.now }
{
    let row = sheet.animation(i);
    out.begin();
    out.count("animation ", "animation", i as u64);
    out.count(" frames ", "frames", row.frames as u64);
    say_looping(out, row.looping);
    if row.next {
        cli_printed::name(out, " next ", "next", sheet.next_name(i));
    }
    out.end();
}

fn say_textures(out: &mut Out, sheet: Sheet<'_>) {
    for i in 0..sheet.texture_count() {
        out.begin();
        out.count("texture ", "texture", i as u64);
        cli_printed::name(out, " ", "name", sheet.texture_name(i));
        out.end();
    }
}

// All of a sheet; what its contents reach is told where there is a book.
pub fn say_sheet(out: &mut Out, path: &[u8], sheet: Sheet<'_>, book: Option<Book<'_>>) {
    say_sizes(out, path, sheet);
    for i in 0..sheet.animation_count() {
        say_animation(out, sheet, i);
    }
    say_contents(out, sheet, book);
    say_tracks(out, sheet);
    say_textures(out, sheet);
}
