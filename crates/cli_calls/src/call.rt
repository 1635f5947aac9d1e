// The calls of a list, each with its arguments.
use cli_printed::Owner;

// What changes the player. No animation is none, by the word `none`.
#[derive(Clone, Copy, Debug)]
pub enum Action {
    Play {
        animation: Option<u16>,
    },
    Pose {
        animation: Option<u16>,
        frame: f32,
    },
    Tick {
        seconds: f32,
        fps: f32,
    },
    Key {
        track: u16,
        key: u16,
        frame: f32,
        value: f32,
    },
    Slope {
        track: u16,
        key: u16,
        slope: f32,
    },
    Undo,
    Redo,
    Open {
        track: u16,
        key: u16,
    },
    Drag {
        frame: f32,
        value: f32,
    },
    Drop,
    Abandon,
}

// What shows something and changes nothing. `row` is a pane's or a material's.
#[derive(Clone, Copy, Debug)]
pub enum Query {
    Read {
        owner: Owner,
        row: u16,
        channel: u16,
    },
    ReadAll,
    ResolvePane {
        pane: u16,
    },
    ResolveSrt {
        material: u16,
        layer: u16,
    },
    Name {
        material: u16,
        slot: u16,
    },
    Next {
        animation: u16,
    },
    Cascade,
    Keys,
    Player,
}

// `Save` names its file, or none.
#[derive(Clone, Copy, Debug)]
pub enum Call<'a> {
    Make(Action),
    Show(Query),
    Save(Option<&'a [u8]>),
}
