// One field of a record, in a slice that is exactly the field's columns: judged, read and written. No function asks anything of
// its caller, and each promise is one equation with the definitions of `rules`; what is no value of a field is told by the types.
#![tactic(auto)]

pub mod alphabets;
pub mod angles;
pub mod heights;
pub mod labels;
pub mod numbers;
pub mod parts;
pub mod sets;
pub mod signs;
pub mod writers;

// A height in millimetres. Kept: 01, "Each place and its form", names these two cases.
#[derive(Clone, Copy, PartialEq, Eq)]
pub enum Height {
    Missing,
    Mm(i32),
}

// Which angle.
#[derive(Clone, Copy)]
pub enum Way {
    Latitude,
    Longitude,
}

// Four characters.
#[derive(Clone, Copy)]
pub struct Four(pub u8, pub u8, pub u8, pub u8);

// A media identifier.
#[derive(Clone, Copy)]
pub struct Media {
    pub maker: u8,
    pub day: u32,
    pub year: u8,
    pub session: u8,
    pub mark: Four,
}

// The sets of characters that words are made of.
#[derive(Clone, Copy)]
pub enum Set {
    Letter,
    LetterOrSpace,
    LetterOrDigit,
    LetterOrDigitOrSpace,
    Digit,
    Printable,
    Title,
    Name,
    YesNo,
    YesNoOrSpace,
}
