// What one channel reads.
use cli_page::Out;
use reading::Reading;

// In text the word, in JSON whether it is shown.
pub fn say_shown(out: &mut Out, before: &str, shown: bool) {
    out.key(before, "shown");
    out.say(match (out.json, shown) {
        (true, true) => "true",
        (true, false) => "false",
        (false, true) => "shown",
        (false, false) => "hidden",
    });
}

// A number, a word or a texture row, whose name is told where there is one.
pub fn say_reading(out: &mut Out, reading: Reading, name: Option<&[u8]>) {
    match reading {
        Reading::Nothing => out.word(" ", "answer", "none"),
        Reading::Number(x) => cli_numbers::number(out, " ", "number", x),
        Reading::Shown(shown) => say_shown(out, " ", shown),
        Reading::Row(row) => {
            out.count(" row ", "row", row as u64);
            if let Some(name) = name {
                cli_printed::name(out, " ", "texture", name);
            }
        }
        Reading::Level(level) => out.count(" level ", "level", level as u64),
    }
}
