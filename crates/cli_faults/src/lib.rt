// A broken rule in words: which part, row and field, at which byte, what is there and what may be.
#![tactic(auto)]

mod asked;
mod parts;

use asked::{say_asked, say_number};
use cli_page::Out;
use faults::{Fault, Rule};
use laws::Refusal;
use parts::{say_field, say_part};

// Why a file is declined: the refusal, and the first rule that is broken, where one is.
#[derive(Clone, Copy)]
pub struct Declined {
    pub refusal: Refusal,
    pub fault: Option<Fault>,
}

// What is there. Of a name it is told what is wrong with it.
fn say_there(out: &mut Out, fault: Fault) {
    match (fault.rule, fault.wants) {
        (Rule::LabelEmpty | Rule::NameEmpty, _) => out.lead(": is empty"),
        (Rule::LabelTwice | Rule::NameTwice, Some(before)) => {
            say_number(out, ": is that of row ", "row_before", before);
        }
        _ => say_number(out, ": is ", "is", fault.there),
    }
}

// `: PART ROW, FIELD, byte N: is X, may be Y`.
pub fn say_fault(out: &mut Out, fault: Fault) {
    say_part(out, fault);
    say_field(out, fault.rule);
    out.count(", byte ", "offset", fault.at as u64);
    say_there(out, fault);
    say_asked(out, fault);
}

// `FILE: ok, a sheet`, or `FILE: declined N: ` and why.
pub fn say_verdict(out: &mut Out, path: &[u8], kind: &str, verdict: Result<(), Declined>) {
    out.begin();
    out.bytes("", "file", path);
    match verdict {
        Ok(()) => {
            out.word(": ", "answer", "ok");
            out.word(", a ", "is", kind);
        }
        Err(declined) => {
            cli_printed::refusal(out, ": ", declined.refusal);
            if let Some(fault) = declined.fault {
                say_fault(out, fault);
            }
        }
    }
}
