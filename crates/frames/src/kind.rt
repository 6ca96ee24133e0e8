// The kinds of frames, each with the number that its frames open with.
#[derive(Clone, Copy, PartialEq, Eq, Debug)]
pub enum Kind {
    Update = 1,
    Fetch = 2,
    Reply = 3,
}
