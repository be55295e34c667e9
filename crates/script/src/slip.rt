use std::error::Error;
use std::fmt;

// What is wrong with the text of an item.
#[derive(Clone, Copy, PartialEq, Eq, Debug)]
pub enum Slip {
    // an end of a band `a..b`
    End,
    Mask,
    Word,
    // an item of no known form
    Item,
}

impl fmt::Display for Slip {
    fn fmt<W: fmt::Write>(&self, f: &mut fmt::Formatter<W>) -> fmt::Result {
        match self {
            Slip::End => f.write_str(
                "not a band; write `a..b`, each end digits with or without `-`, -2000000 to 266435455",
            ),
            Slip::Mask => f.write_str("not a mask; write `m` and then digits, 0 to 268435455"),
            Slip::Word => f.write_str(
                "not a word; write `x` and then exactly eight hexadecimal digits",
            ),
            Slip::Item => f.write_str(
                "not an item of a row; write a band `a..b`, a mask `mN` or a word `xHHHHHHHH`",
            ),
        }
    }
}

impl Error for Slip {}
