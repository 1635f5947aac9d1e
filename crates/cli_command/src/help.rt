// What the commands are.
use cli_page::Out;

static LINES: [&str; 20] = [
    "menu_cli check FILE..",
    "    whether each file is a sheet or a book, and if not, which rule it breaks; a book is held against the sheet before it",
    "menu_cli info SHEET [BOOK]",
    "    what is in them: animations, contents and what they reach, tracks with their channels, textures, panes, materials",
    "menu_cli frames SHEET BOOK ANIMATION [FROM TO]",
    "    what an animation shows, frame by frame: the overridden channels, and each pane shown or hidden with its alpha",
    "menu_cli reach OLD NEW BOOK",
    "    what the edits between two sheets reach: each edited track, the frames that it changes, and every pane touched or untouched",
    "menu_cli replay SHEET BOOK < CALLS",
    "    makes the calls on standard input, one a line, and answers each:",
    "    play A, pose A FRAME, tick SECONDS FPS, key TRACK KEY FRAME VALUE, slope TRACK KEY SLOPE, undo, redo,",
    "    open TRACK KEY, drag FRAME VALUE, drop, abandon, read pane P CHANNEL, read material M CHANNEL, read all,",
    "    resolve pane P, resolve srt M LAYER, name M SLOT, next A, cascade, keys, player, save [FILE];",
    "    A may be none; P, M and CHANNEL are names or numbers; a name with spaces stands in quotes; # begins a comment",
    "menu_cli help [refusals]",
    "menu_cli version",
    "--json, anywhere: one JSON object a line; --quiet: no progress on a terminal; --help, -h, --version",
    "numbers: a decimal of at most seven digits as -12.375, or 0x and eight hexadecimal digits, which are its bits;",
    "a number after ~ is cut short, every other reads back as the same number",
    "exit status: 0 accepted, 1 declined, 2 wrong use or a file that can't be read or written",
];

pub fn usage(out: &mut Out) {
    for text in LINES {
        out.begin();
        out.word("", "help", text);
        out.end();
    }
}

// The program's version, which the Rust package has too.
pub fn say_version(out: &mut Out) {
    out.begin();
    out.word("menu_cli ", "version", "0.1.0");
    out.end();
}
