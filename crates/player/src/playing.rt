// Play, pose and tick: they move the selection, the frame, playing and preview, and nothing else.
// Stays a number: a selection, NONE for none, since C reads the player.
ghost use Rattle.std.specs.Prelude.{◌≡◌, ◌<◌};
ghost use Rattle.sheet.specs.Sizes.{animation_count};
ghost use Rattle.player.specs.Parts.{view_of, with_view};
ghost use Rattle.player.specs.View.{play_view, pose_view, ticks, tick_sum, tick_frame, tick_ends, tick_moves};
ghost use Rattle.player.specs.Ticked.{stepped_of, Selected, row_count, row_wraps, row_end};

use crate::{Player, Tick};
use edit::NONE;
use float::{is_finite, remainder};
use sheet::{Animation, Sheet};

// What a tick answers, and the player after it.
#[derive(Clone, Copy)]
pub struct Stepped {
    pub answer: Tick,
    pub player: Player,
}

impl Player {
    // The animation from its start; play of none does nothing.
    #[tactic(auto, unfolding(crate::specs::View::play_view))]
    pub fn play(mut self, animation: u16) -> Player
        ensures { result ≡ with_view self (play_view animation (view_of self)) }
    {
        if animation == NONE {
            return self;
        }
        self.selection = animation;
        self.playing = true;
        self.preview = true;
        self.frame = 0.0;
        self
    }

    // The animation held at a frame; from A up, and none, clear the selection.
    #[tactic(auto, unfolding(crate::specs::View::pose_view))]
    pub fn pose(mut self, sheet: &Sheet, animation: u16, frame: f32) -> Player
        ensures { result ≡ with_view self (pose_view sheet.now.bytes.now animation frame) }
    {
        self.playing = false;
        if (animation as usize) < sheet.animation_count() {
            self.selection = animation;
            self.preview = true;
            self.frame = frame;
        } else {
            self.selection = NONE;
            self.preview = false;
            self.frame = 0.0;
        }
        self
    }

    // A playing tick: something is selected, and plays.
    #[tactic(auto, unfolding(crate::specs::View::ticks))]
    pub fn ticks(&self) -> bool
        ensures { result ≡ ticks (view_of self.now) }
    {
        (self.selection != NONE) & self.playing
    }

    #[tactic(auto, unfolding(crate::specs::View::tick_sum))]
    pub fn tick_sum(&self, dt: f32, fps: f32) -> f32
        ensures { result ≡ tick_sum (view_of self.now) dt fps }
    {
        self.frame + dt * fps
    }

    // Row 8 of a playing tick: the sum, and the frame that it would leave, are finite. An idle tick has neither.
    #[tactic(auto, using(crate::specs::Ticked::tick_animation), unfolding(crate::specs::View::tick_moves))]
    pub fn tick_moves(&self, sheet: &Sheet, dt: f32, fps: f32) -> bool
        requires { Selected sheet.now.bytes.now self.now }
        ensures { result ≡ tick_moves sheet.now.bytes.now (view_of self.now) dt fps }
    {
        if !self.ticks() {
            return true;
        }
        let sum = self.tick_sum(dt, fps);
        is_finite(sum) & is_finite(tick_frame(sheet, self.selection as usize, sum))
    }

    // A tick whose numbers are finite. Nothing moves unless something is selected and plays.
    #[tactic(auto, using(crate::specs::Ticked::tick_animation), unfolding(crate::specs::View::tick_view, crate::specs::View::tick_answer, crate::specs::View::end_of))]
    pub fn tick(mut self, sheet: &Sheet, dt: f32, fps: f32) -> Stepped
        requires { Selected sheet.now.bytes.now self }
        ensures { result ≡ stepped_of sheet.now.bytes.now self dt fps }
    {
        if !self.ticks() {
            return Stepped {
                answer: Tick::Idle,
                player: self,
            };
        }
        let a = self.selection as usize;
        let sum = self.tick_sum(dt, fps);
        self.frame = tick_frame(sheet, a, sum);
        self.playing = !tick_ends(sheet, a, sum);
        let answer = if self.playing {
            Tick::Running
        } else {
            end_of(sheet.animation(a))
        };
        Stepped {
            answer,
            player: self,
        }
    }
}

// How an animation ends: with a next name or without.
fn end_of(row: Animation) -> Tick
    ensures { result ≡ row_end row }
{
    if row.next { Tick::Next } else { Tick::Ended }
}

fn frame_count(row: Animation) -> f32
    ensures { result ≡ row_count row }
{
    row.frames as f32
}

fn wraps(row: Animation) -> bool
    ensures { result ≡ row_wraps row }
{
    row.looping & (frame_count(row) > 0.0)
}

// Where a playing tick of animation a leaves the frame.
#[tactic(auto, unfolding(crate::specs::View::tick_frame, crate::specs::View::wraps, crate::specs::View::count_of))]
pub fn tick_frame(sheet: &Sheet, a: usize, sum: f32) -> f32
    requires { a < animation_count sheet.now.bytes.now }
    ensures { result ≡ tick_frame sheet.now.bytes.now a sum }
{
    let row = sheet.animation(a);
    let count = frame_count(row);
    if count <= sum {
        if wraps(row) {
            remainder(sum, count)
        } else {
            count
        }
    } else {
        sum
    }
}

// Whether a playing tick ends animation a.
#[tactic(auto, unfolding(crate::specs::View::tick_ends, crate::specs::View::wraps, crate::specs::View::count_of))]
pub fn tick_ends(sheet: &Sheet, a: usize, sum: f32) -> bool
    requires { a < animation_count sheet.now.bytes.now }
    ensures { result ≡ tick_ends sheet.now.bytes.now a sum }
{
    let row = sheet.animation(a);
    (frame_count(row) <= sum) & !wraps(row)
}
