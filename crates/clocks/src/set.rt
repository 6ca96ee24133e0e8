// Sets of sites, told as a byte: site l counts 2 to the power l.
// Stays: `l < 8` is all that a shift of a byte asks; a type for site numbers would have to be made for each number of a loop.
ghost use Rattle.std.specs.Prelude.{◌≡◌, ◌<◌};
ghost use Rattle.clocks.specs.Sites.{has, with_site, without_site};

/// Is site l in the set?
pub fn has(set: u8, l: u8) -> bool
    requires { l < 8 }
    ensures { result ≡ has set l }
{
    set & (1 << l) != 0
}

/// The set with site l, which may be in it already.
pub fn with(set: u8, l: u8) -> u8
    requires { l < 8 }
    ensures { result ≡ with_site set l }
{
    set | (1 << l)
}

/// The set without site l, which need not be in it.
pub fn without(set: u8, l: u8) -> u8
    requires { l < 8 }
    ensures { result ≡ without_site set l }
{
    set & !(1 << l)
}
