// Items, the ways they go, and the twelve refusals: the words that every layer speaks.
// Promises: each refusal, band and way has the one number that specs/Numbers.antt gives it.
#![tactic(auto)]

ghost use Rattle.std.specs.Prelude.{◌≡◌};
ghost use Rattle.item.specs.Numbers.{number, band_number, lane_number};

/// What a lane carries: a byte, the END of a record, or NOTE k with k from 1 to 255.
#[derive(Clone, Copy, Debug, PartialEq, Eq)]
pub enum Item {
    Byte(u8),
    End,
    Note(u8),
}

/// What goes down is told apart on the line by its band.
#[derive(Clone, Copy, Debug, PartialEq, Eq)]
pub enum Band {
    Records = 0,
    Echo = 1,
}

/// The ways through a level: up to the reader, or down to the line on a band. Each is a lane.
#[derive(Clone, Copy, Debug, PartialEq, Eq)]
pub enum Way {
    Up,
    Down(Band),
}

/// Why a call refuses. A refused call changes nothing.
#[derive(Clone, Copy, Debug, PartialEq, Eq)]
pub enum Refusal {
    NotOpen = 1,
    NoService = 2,
    NotEnabled = 3,
    NoClaim = 4,
    DoesNotFit = 5,
    TooFewBytes = 6,
    BufferTooShort = 7,
    NoSpace = 8,
    Nothing = 9,
    NoMessageBlock = 10,
    NoDataBlock = 11,
    OutOfBounds = 12,
}

impl From<Band> for u8 {
    ghost from_gives = { λ b r. r ≡ band_number b };

    fn from(band: Band) -> u8 {
        band as u8
    }
}

impl From<Way> for u8 {
    ghost from_gives = { λ w r. r ≡ lane_number w };

    fn from(way: Way) -> u8 {
        match way {
            Way::Up => 0,
            Way::Down(band) => u8::from(band) + 1,
        }
    }
}

impl From<Refusal> for u8 {
    ghost from_gives = { λ e r. r ≡ number e };

    fn from(refusal: Refusal) -> u8 {
        refusal as u8
    }
}

impl Band {
    pub fn number(self) -> u8
        ensures value { result ≡ band_number self }
    {
        u8::from(self)
    }
}

impl Way {
    /// The number of the lane: 0 runs up, and band b goes down lane b + 1.
    pub fn lane(self) -> u8
        ensures value { result ≡ lane_number self }
    {
        u8::from(self)
    }
}

impl Refusal {
    pub fn number(self) -> u8
        ensures value { result ≡ number self }
    {
        u8::from(self)
    }
}
