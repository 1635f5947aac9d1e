// The channel that a raw number of FLVC reaches, through the outward calls. Stays on arrays: what the calls are lent is fixed memory.
use cli_printed::PANE_CHANNELS;
use curve::Kind;

pub const SHEET_BYTES: usize = 94;

pub const BOOK_BYTES: usize = 76;

// What is changed in the sheet: the content's type, and the target's raw number and curve.
const TYPE: usize = 41;

const RAW: usize = 71;

const CURVE: usize = 76;

// The types of a pane's contents.
const PANE: u8 = 0;

const PANE_EXT: u8 = 3;

// What else the content and the curve may be than a pane's and a constant.
const OTHERS: [(u8, Kind); 5] = [
    (PANE, Kind::Step),
    (PANE, Kind::Hermite),
    (PANE_EXT, Kind::Constant),
    (PANE_EXT, Kind::Step),
    (PANE_EXT, Kind::Hermite),
];

// A sheet of one animation, one content and one target, whose one key keeps the rules of every curve; and a book with the content's pane.
#[derive(Clone, Copy)]
pub struct Tried {
    pub sheet: [u8; SHEET_BYTES],
    pub book: [u8; BOOK_BYTES],
}

// The place of the only mark.
fn only(marks: &[u8]) -> Option<usize> {
    let is_set = |mark: &u8| *mark != 0;
    let place = marks.iter().position(is_set);
    if marks.iter().rposition(is_set) == place {
        place
    } else {
        None
    }
}

impl Tried {
    // Before the files are read.
    pub fn new() -> Tried {
        Tried {
            sheet: [0; SHEET_BYTES],
            book: [0; BOOK_BYTES],
        }
    }

    // The only channel that is overridden. A call that is declined leaves every mark at 0.
    fn overridden(&self) -> Option<usize> {
        let mut frames = [0.0f32; 1];
        let mut values = [0.0f32; 1];
        let mut slopes = [0.0f32; 1];
        let loaded = menu::load(&self.sheet, &mut frames, &mut values, &mut slopes);
        let posed = menu::pose(loaded.player, &self.sheet, 0, 0.0);
        let mut marks = [0u8; PANE_CHANNELS];
        let mut numbers = [0.0f32; PANE_CHANNELS];
        menu_readings::read_all(
            posed.player,
            &self.sheet,
            &self.book,
            &frames,
            &values,
            &slopes,
            &mut marks,
            &mut numbers,
        );
        only(&marks)
    }

    // The same from a content of a type, by a curve.
    fn with(&mut self, content: u8, curve: Kind) -> Option<usize> {
        self.sheet[TYPE] = content;
        self.sheet[CURVE] = curve as u8;
        self.overridden()
    }

    // The channel, from a content of type Pane and of type PaneExt and by each curve, where all of these reach the same.
    pub fn reached(&mut self, raw: u8) -> Option<usize> {
        self.sheet[RAW] = raw;
        let c = self.with(PANE, Kind::Constant);
        for (content, curve) in OTHERS {
            if self.with(content, curve) != c {
                return None;
            }
        }
        c
    }
}
