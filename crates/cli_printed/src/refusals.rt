// The refusals in words. The Rust package and the C header have the same.
ghost use Rattle.std.specs.Prelude.{◌≡◌, ◌≤◌};
ghost use Rattle.laws.specs.Refusal.{declined};

use cli_page::{Out, Status};
use laws::Refusal;

// The refusal that a call's number tells, and none where it tells that the call was accepted. Stays a number here: the outward calls answer with one, as C reads it.
pub fn accepted(n: u8) -> Result<(), Refusal>
    ensures { n ≤ 15 → declined result ≡ n }
{
    match Refusal::try_from(n) {
        Ok(refusal) => Err(refusal),
        Err(_) => Ok(()),
    }
}

fn words(refusal: Refusal) -> &'static str {
    match refusal {
        Refusal::SheetLayout => "the sheet breaks its layout",
        Refusal::BookLayout => "the book breaks its layout",
        Refusal::KeyArrayLength => "a key array is not as long as the sheet has keys",
        Refusal::KeyRules => "the keys break the key rules",
        Refusal::BrokenState => {
            "the player's state is broken, or an undo's or redo's key is not as its entry says"
        }
        Refusal::NoAnimation => "no such animation, or nothing is active",
        Refusal::NoSuchRow => {
            "no such track in the active animation, key, channel, pane, material, layer or origin"
        }
        Refusal::BadArgument =>
            "a number is not finite, or UV layers or SRTs are not whole entries",
        Refusal::PastNextKey => "the clamped frame is above the next key's",
        Refusal::NotHermite => "the curve is not Hermite",
        Refusal::NothingToTake => "nothing to undo, or to redo",
        Refusal::AngleTooLarge => "an angle above 3,600 degrees",
        Refusal::OutputLength => "an output is not exactly as long as it must be",
        Refusal::SaveLength => "the buffer is not as long as the sheet",
        Refusal::DragState => "a drag is open, or none is",
    }
}

// `: ` and what a refusal means. Stays a function: an object has it as a member, and `Display` writes one form.
pub fn meaning(out: &mut Out, refusal: Refusal) {
    out.word(": ", "words", words(refusal));
}

// `declined N`, which is also what the command came to.
pub fn refused(out: &mut Out, before: &str, refusal: Refusal) {
    out.came_to(Status::Declined);
    out.word(before, "answer", "declined");
    out.count(" ", "refusal", refusal.number() as u64);
}

// `declined N: ` and what it means.
pub fn refusal(out: &mut Out, before: &str, refusal: Refusal) {
    refused(out, before, refusal);
    meaning(out, refusal);
}

// The whole table, a line each.
pub fn say_refusals(out: &mut Out) {
    for n in 0..=u8::MAX {
        if let Err(refusal) = accepted(n) {
            out.begin();
            out.count("refusal ", "refusal", n as u64);
            meaning(out, refusal);
            out.end();
        }
    }
}
