// What the check of an image finds first.
ghost use Rattle.std.specs.Prelude.{◌≡◌, Some};
ghost use Rattle.image.specs.Faults.{named_block, named_row, refusal_number, fault_text};

use std::error::Error;
use std::fmt;

#[derive(Clone, Copy, Debug, PartialEq, Eq)]
pub enum Fault {
    // The image is not 1 to 64 whole blocks.
    Length,
    // A block's number is not its place, from 0.
    Number { block: u8 },
    // A block is of another kind.
    Kind { block: u8 },
    // A block's mark or one of the four bytes after it is not 0.
    Mark { block: u8 },
    // A block's check does not fit.
    Check { block: u8 },
    // A row, by its place 0 to 30 in the block, does not unpack; the kind names the byte.
    Row { block: u8, row: u8, byte: u8 },
}

impl Fault {
    // The block that the fault names.
    pub fn block(self) -> Option<u8>
        ensures { result ≡ named_block self }
    {
        match self {
            Fault::Length => None,
            Fault::Number { block }
            | Fault::Kind { block }
            | Fault::Mark { block }
            | Fault::Check { block }
            | Fault::Row { block, .. } => Some(block),
        }
    }

    // The row that the fault names, by its place in the block.
    pub fn row(self) -> Option<u8>
        ensures { result ≡ named_row self }
    {
        match self {
            Fault::Row { row, .. } => Some(row),
            _ => None,
        }
    }
}

// The refusal's number.
impl From<Fault> for u32 {
    ghost from_gives = { λ f n. n ≡ refusal_number f };

    fn from(fault: Fault) -> u32 {
        match fault {
            Fault::Length => 14,
            Fault::Number { .. } => 15,
            Fault::Kind { .. } => 16,
            Fault::Mark { .. } => 17,
            Fault::Check { .. } => 18,
            Fault::Row { .. } => 19,
        }
    }
}

impl Error for Fault {}

impl fmt::Display for Fault {
    ghost output = { λ f. Some (fault_text f) };

    fn fmt<W: fmt::Write>(&self, f: &mut fmt::Formatter<W>) -> fmt::Result {
        match *self {
            Fault::Length => f.write_str("the length is not 1 to 64 blocks of 512 bytes"),
            Fault::Number { block } => write!(f, "block {block}: the block number is wrong"),
            Fault::Kind { block } => write!(f, "block {block}: the kind is another"),
            Fault::Mark { block } => write!(
                f,
                "block {block}: the mark or one of bytes 4 to 7 is not 0"
            ),
            Fault::Check { block } => write!(f, "block {block}: the check does not fit"),
            Fault::Row { block, row, byte } => write!(
                f,
                "block {block}, row {row}: no value has the bytes from byte {byte} on"
            ),
        }
    }
}
