// An item of a reading, by the words that it adds to the row.
#[derive(Clone, Copy, PartialEq, Eq, Debug)]
pub enum Item {
    // the LOW and the HIGH word of a band
    Band(u32, u32),
    // one word: a MASK, or any word by its bits
    One(u32),
}
