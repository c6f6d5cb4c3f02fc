//! What is known of a code before it is run: the sorts of its operands, what it is for, what its arguments may name.

/// What an operand is.
#[derive(Clone, Copy, Default, PartialEq, Eq)]
pub enum Sort {
    #[default]
    Number,
    Truth,
    Object,
    /// A number that stands in the code and is an object's too, or nothing's.
    NumberOrObject,
}

/// What a code is for.
#[derive(Clone, Copy)]
pub enum Use {
    /// It asks, and its answer is a truth; so many loops are open around it.
    Test(u8),
    /// It says what an object is like.
    Describing,
    /// It is what a rule does.
    Body,
}

/// How many there are in a story of what the arguments of a code name.
#[derive(Clone, Copy)]
pub struct Counts {
    pub objects: u16,
    pub kinds: u16,
    /// Either-or properties.
    pub flags: u16,
    /// Number properties.
    pub numbers: u16,
    pub variables: u16,
    pub scenes: u16,
    pub strings: u16,
    pub codes: u16,
    pub actions: u16,
    pub books: u16,
    /// How many values each kind of value has; none where there is no such kind.
    pub values: [u8; 100],
    /// The code's own number.
    pub own: u16,
}
