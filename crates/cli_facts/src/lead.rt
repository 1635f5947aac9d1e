// What stands in front of each fact.
use cli_page::Out;
use laws::Refusal;

// The frame that shows it, or the line of the call that asked for it.
#[derive(Clone, Copy, Debug)]
pub enum Lead {
    Frame(u64),
    Line(u64),
}

// The line of a list that a fact answers: in text it is told once, above the facts.
pub fn say_line(out: &mut Out, n: u64) {
    if out.json {
        out.count("", "line", n);
    } else {
        out.lead("  ");
    }
}

impl Lead {
    // A fact begins.
    pub fn begin(self, out: &mut Out) {
        out.begin();
        match self {
            Lead::Frame(n) => {
                out.count("frame ", "frame", n);
                out.lead(" ");
            }
            Lead::Line(n) => say_line(out, n),
        }
    }

    // In place of all facts, why there are none.
    pub fn say_refusal(self, out: &mut Out, refusal: Refusal) {
        self.begin(out);
        cli_printed::refusal(out, "", refusal);
        out.end();
    }
}
