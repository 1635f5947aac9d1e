// What can't be read of a line.

// What is wrong with a word.
#[derive(Clone, Copy, Debug, PartialEq, Eq)]
pub enum Fault {
    Unknown,
    Missing,
    NoWhole,
    NoNumber,
    TooMany,
    NoName,
}

// The place of a word, and what is wrong with it.
#[derive(Clone, Copy, Debug, PartialEq, Eq)]
pub struct Unread {
    pub word: usize,
    pub fault: Fault,
}

impl Fault {
    pub fn words(self) -> &'static str {
        match self {
            Fault::Unknown => "is no call",
            Fault::Missing => "is missing",
            Fault::NoWhole => "is no whole number below 65,536",
            Fault::NoNumber => {
                "is no number: write a decimal of at most seven digits as -12.375, or 0x and eight digits"
            }
            Fault::TooMany => "is one word too many",
            Fault::NoName => "is no whole number below 65,536, nor a name that fits here",
        }
    }

    pub fn at(self, word: usize) -> Unread {
        Unread { word, fault: self }
    }
}
