// Refusals. Every call of the library that does not do what it was asked answers a `Fault`.
ghost use Rattle.std.specs.Prelude.{◌≡◌, ◌+◌, ◌^◌, ◌<◌};
ghost use Rattle.values.specs.Refusals.{of_site, of_frame, of_value, number_of, layer_of, place_of, counted_from};

/// Why a call is refused; docs/REFUSALS.md has the table.
#[derive(Clone, Copy, PartialEq, Eq, Debug)]
pub enum Refusal {
    OutOfRange = 1,
    OtherTables = 2,
    OtherSession = 3,
    FetchIsOut = 4,
    NoSuchRegister = 5,
    CountAtLimit = 6,
    NoFetchIsOut = 7,
    NotHeldHere = 8,
    HeldHere = 9,
    NotForThisSite = 10,
    KnownAlready = 11,
    ListIsFull = 12,
    NoneReady = 13,
    OtherFetch = 14,
    NotCaughtUp = 15,
    BitsRefused = 16,
    FieldRefused = 17,
    NoRoom = 18,
}

/// One refusal for all layers, carried up by `?`. A value kind and a frame name the first bit of the field that they refuse; a site says why.
#[derive(Clone, Copy, PartialEq, Eq, Debug)]
pub enum Fault {
    Value { place: u32 },
    Frame { place: u32 },
    Site(Refusal),
}

impl Fault {
    /// What a site refuses, or the making of a value or a placement.
    // Stays: a method and no `From<Refusal>`, since `Refusal::NoRoom.into()` is no shorter to read and hides the layer that refuses.
    pub fn of_site(why: Refusal) -> Fault
        ensures { result ≡ of_site why }
    {
        Self::Site(why)
    }

    /// A frame's field that begins at a bit.
    pub fn of_frame(place: u32) -> Fault
        ensures { result ≡ of_frame place }
    {
        Self::Frame { place }
    }

    /// A value's field that begins at a bit.
    pub fn of_value(place: u32) -> Fault
        ensures { result ≡ of_value place }
    {
        Self::Value { place }
    }

    /// The number in the table of refusals.
    pub fn number(self) -> u8
        ensures { result ≡ number_of self }
    {
        match self {
            Fault::Value { .. } => Refusal::BitsRefused as u8,
            Fault::Frame { .. } => Refusal::FieldRefused as u8,
            Fault::Site(why) => why as u8,
        }
    }

    /// The layer that refused: 1 a value kind, 2 a frame, 3 a site.
    pub fn layer(self) -> u8
        ensures { result ≡ layer_of self }
    {
        match self {
            Fault::Value { .. } => 1,
            Fault::Frame { .. } => 2,
            Fault::Site(_) => 3,
        }
    }

    /// The first bit of the refused field; 0 for a site.
    pub fn place(self) -> u32
        ensures { result ≡ place_of self }
    {
        match self {
            Fault::Value { place } | Fault::Frame { place } => place,
            Fault::Site(_) => 0,
        }
    }

    /// The refusal of a field in what begins at a bit: its place is counted from where that is counted from.
    pub fn counted_from(self, at: u32) -> Fault
        requires { at + place_of self < 2 ^ 32 }
        ensures { result ≡ counted_from at self }
    {
        match self {
            Fault::Value { place } => Fault::Value { place: at + place },
            Fault::Frame { place } => Fault::Frame { place: at + place },
            Fault::Site(why) => Fault::Site(why),
        }
    }
}
