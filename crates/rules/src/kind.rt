ghost use Rattle.std.specs.Prelude.{◌≡◌};
ghost use Rattle.rules.specs.Spare.{kind_byte, Reads};

// The kinds of the spare table: a log block gets pages as they are written, a copy holds a logical block made anew.
#[derive(Clone, Copy, PartialEq, Eq)]
pub enum Kind {
    Log,
    Copy,
}

// The byte of each.
pub const LOG: u8 = 240;

pub const COPY: u8 = 15;

// A byte that stands for no kind.
#[derive(Clone, Copy, PartialEq, Eq)]
pub struct UnknownKind(pub u8);

impl From<Kind> for u8 {
    ghost from_gives = { λ kind byte. byte ≡ kind_byte kind };

    fn from(kind: Kind) -> u8 {
        match kind {
            Kind::Log => LOG,
            Kind::Copy => COPY,
        }
    }
}

impl TryFrom<u8> for Kind {
    type Error = UnknownKind;

    ghost try_from_gives = { Reads };

    fn try_from(byte: u8) -> Result<Self, UnknownKind> {
        match byte {
            LOG => Ok(Kind::Log),
            COPY => Ok(Kind::Copy),
            _ => Err(UnknownKind(byte)),
        }
    }
}
