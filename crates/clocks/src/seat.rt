// Which site of how many. What walks the sites of a rack, or the counts of a clock, takes one of these, and so need not ask for the bounds.
ghost use Rattle.std.specs.Prelude.{◌<◌, ◌≤◌};

/// How many sites a rack has, at most eight.
#[derive(Clone, Copy, PartialEq, Eq, Debug)]
pub struct SiteCount {
    pub number: u8,
    ghost few: { number ≤ 8 },
}

/// One site of so many.
#[derive(Clone, Copy, PartialEq, Eq, Debug)]
pub struct Seat {
    pub count: SiteCount,
    pub site: u8,
    ghost inside: { site < count.number },
}
