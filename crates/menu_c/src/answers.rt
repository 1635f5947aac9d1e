// The answers that hold an enum, as structs of numbers, which pass by value to C.
// Stays in functions: a `From` for u8 may stand only in the enum's own crate, which knows no numbers of C.
ghost use Rattle.std.specs.Prelude.{◌≡◌};
ghost use Rattle.menu_c.specs.Answers.{tick_number, kind_of};

use player::{Player, Tick};
use reading::Reading;

// `answer` is 0 idle, 1 running, 2 ended, 3 ended with a next name.
#[repr(C)]
#[derive(Clone, Copy)]
pub struct Ticked {
    pub refusal: u8,
    pub answer: u8,
    pub player: Player,
}

// `kind` is 0 nothing, 1 a number, 2 shown (1) or hidden (0), 3 a texture row, 4 a level.
#[repr(C)]
#[derive(Clone, Copy)]
pub struct ReadOne {
    pub refusal: u8,
    pub kind: u8,
    pub number: f32,
}

// The numbers are the C interface's, written out: the order of the variants is not.
fn tick_number(t: Tick) -> u8
    ensures { result ≡ tick_number t }
{
    match t {
        Tick::Idle => 0,
        Tick::Running => 1,
        Tick::Ended => 2,
        Tick::Next => 3,
    }
}

impl From<menu::Ticked> for Ticked {
    ghost use Rattle.std.specs.Prelude.{◌≡◌};
    ghost use Rattle.menu_c.specs.Answers.{ticked_of};

    ghost from_gives = { λ g t. t ≡ ticked_of g };

    fn from(g: menu::Ticked) -> Ticked {
        Ticked {
            refusal: g.refusal,
            answer: tick_number(g.answer),
            player: g.player,
        }
    }
}

// The C interface's numbers likewise.
fn kind_of(r: Reading) -> u8
    ensures { result ≡ kind_of r }
{
    match r {
        Reading::Nothing => 0,
        Reading::Number(_) => 1,
        Reading::Shown(_) => 2,
        Reading::Row(_) => 3,
        Reading::Level(_) => 4,
    }
}

impl From<menu_readings::ReadOne> for ReadOne {
    ghost use Rattle.std.specs.Prelude.{◌≡◌};
    ghost use Rattle.menu_c.specs.Answers.{read_one_of};

    ghost from_gives = { λ g r. r ≡ read_one_of g };

    fn from(g: menu_readings::ReadOne) -> ReadOne {
        ReadOne {
            refusal: g.refusal,
            kind: kind_of(g.reading),
            number: f32::from(g.reading),
        }
    }
}
