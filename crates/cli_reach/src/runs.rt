// Whole frames in runs, written as they are found: `1..11,40`, in JSON [[1,11],[40,40]].
use cli_page::Out;
use std::fmt::Write;

// `some`: a run was written; `open`: the first and the last frame of a run that may go on.
#[derive(Clone, Copy)]
pub struct Runs {
    some: bool,
    open: Option<(u64, u64)>,
}

fn say_run(out: &mut Out, from: u64, last: u64) {
    let _ = match (out.json, from == last) {
        (true, _) => write!(out, "[{from},{last}]"),
        (false, true) => write!(out, "{from}"),
        (false, false) => write!(out, "{from}..{last}"),
    };
}

impl Runs {
    pub fn begin(out: &mut Out) -> Runs {
        out.key(" frames ", "frames");
        if out.json {
            out.say("[");
        }
        Runs {
            some: false,
            open: None,
        }
    }

    // The run that is open ends.
    fn close(&mut self, out: &mut Out) {
        if let Some((from, last)) = self.open.take() {
            if self.some {
                out.say(",");
            }
            say_run(out, from, last);
            self.some = true;
        }
    }

    // The next frame, which is one of those that are told or not.
    pub fn next(&mut self, out: &mut Out, frame: u64, told: bool) {
        if !told {
            self.close(out);
            return;
        }
        let from = match self.open {
            Some((from, _)) => from,
            None => frame,
        };
        self.open = Some((from, frame));
    }

    // No frame is left.
    pub fn end(mut self, out: &mut Out) {
        self.close(out);
        if out.json {
            out.say("]");
        } else if !self.some {
            out.say("none");
        }
    }
}
