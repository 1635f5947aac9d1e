// A sheet's keys, loaded, and the player that plays them.
// Stays on arrays of the most keys: nothing allocates, and the calls are lent three slices.
ghost use Rattle.std.specs.Prelude.{◌≤◌};

use cli_printed::accepted;
use curve::Keys;
use laws::Refusal;
use player::Player;
use sheet::Sheet;

// The most keys of a sheet.
pub const MOST_KEYS: usize = 2048;

// The first `count` of each array are the sheet's keys.
#[derive(Clone, Copy)]
pub struct Loaded {
    pub player: Player,
    pub frames: [f32; MOST_KEYS],
    pub values: [f32; MOST_KEYS],
    pub slopes: [f32; MOST_KEYS],
    pub count: usize,
    pub ghost few: { count ≤ 2048 },
}

impl Loaded {
    ghost use Rattle.std.specs.Prelude.{◌≡◌, take};

    pub fn of(sheet: Sheet<'_>) -> Result<Loaded, Refusal> {
        let count = sheet.key_count();
        let mut frames = [0.0f32; MOST_KEYS];
        let mut values = [0.0f32; MOST_KEYS];
        let mut slopes = [0.0f32; MOST_KEYS];
        let loaded = menu::load(
            sheet.bytes,
            &mut frames[..count],
            &mut values[..count],
            &mut slopes[..count],
        );
        accepted(loaded.refusal)?;
        Ok(Loaded {
            player: loaded.player,
            frames,
            values,
            slopes,
            count,
        })
    }

    pub fn keys(&self) -> Keys<'_>
        ensures frames { result.frames.now ≡ take self.now.count self.now.frames }
        ensures values { result.values.now ≡ take self.now.count self.now.values }
        ensures slopes { result.slopes.now ≡ take self.now.count self.now.slopes }
    {
        Keys {
            frames: &self.frames[..self.count],
            values: &self.values[..self.count],
            slopes: &self.slopes[..self.count],
        }
    }
}
