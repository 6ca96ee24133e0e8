// What the calls of a site answer when they are not refused. The rules (specs/) answer these same types.
// Stays: a label is a pair, writer and write number, by a rule of the project.

/// An accepted write: its label (writer and write number), the set of the other holders, and the length of the update frame for them; 0, and no
/// frame, if there are none.
// Stays: a length and no Option, since it is how many bytes of the place were written, and 0 is one such number.
#[derive(Clone, Copy, PartialEq, Eq, Debug)]
pub struct Written {
    pub label: (u8, u32),
    pub others: u8,
    pub length: usize,
}

/// What a read answers, local or fetched: a value, and the label of the write that it comes from; none for the start value.
#[derive(Drop)]
pub struct Read<V> {
    pub value: V,
    pub label: Option<(u8, u32)>,
}

/// A fetch that was begun: the home that is asked, and the length of the fetch frame for it.
#[derive(Clone, Copy, PartialEq, Eq, Debug)]
pub struct Begun {
    pub home: u8,
    pub length: usize,
}

/// A write that was applied: its label and register.
#[derive(Clone, Copy, PartialEq, Eq, Debug)]
pub struct Applied {
    pub label: (u8, u32),
    pub register: u16,
}

/// A fetch that was served: the reader, and the length of the reply frame for it.
#[derive(Clone, Copy, PartialEq, Eq, Debug)]
pub struct Served {
    pub reader: u8,
    pub length: usize,
}
