// Shifts and masks of a few bytes as one number: what a field is put into and read from.
ghost use Rattle.std.specs.Prelude.{◌≡◌, ◌+◌, ◌-◌, ◌*◌, ◌/◌, ◌%◌, ◌^◌, ◌<◌, ◌≤◌, length, min};
ghost use Rattle.fields.specs.Bits.{bits, num, bits_of};

/// The byte that a bit lies in.
pub fn byte_of(bit: usize) -> usize
    ensures { result ≡ bit / 8 }
{
    bit >> 3
}

/// How many bits of its byte stand before a bit.
pub fn offset_of(bit: usize) -> u32
    ensures { result ≡ bit % 8 }
{
    (bit & 7) as u32
}

/// The byte behind those that the bits before an end lie in.
pub fn behind(end: usize) -> usize
    ensures { result ≡ end / 8 + min 1 (end % 8) }
{
    byte_of(end) + usize::from(offset_of(end) > 0)
}

/// How many bits of the last byte stand behind those before an end.
pub fn spare_of(end: usize) -> u32
    ensures { result ≡ (8 - end % 8) % 8 }
{
    (8 - offset_of(end)) & 7
}

/// The number b with x as the field of k bits above its last s.
#[tactic(auto, using(crate::proofs::Masks::patch_is))]
pub fn patch(b: u64, x: u64, k: u32, s: u32) -> u64
    requires { (k + s ≤ 40) × (x < 2 ^ k) }
    ensures { result ≡ b / 2 ^ (k + s) * 2 ^ (k + s) + (x * 2 ^ s + b % 2 ^ s) }
{
    let high = (b >> (k + s)) << (k + s);
    let low = b & ((1 << s) - 1);
    high | ((x << s) | low)
}

/// The k bits of n above its last s.
#[tactic(auto, using(crate::proofs::Masks::mask_is))]
pub fn part(n: u64, k: u32, s: u32) -> u64
    requires { (k < 64) × (s < 64) }
    ensures { result ≡ n / 2 ^ s % 2 ^ k }
{
    (n >> s) & ((1 << k) - 1)
}

/// The number that the bits of up to eight bytes make.
#[tactic(auto, unfolding(crate::specs::Bits::num, crate::specs::Bits::bits_of), using(crate::proofs::Numbers::number_next))]
pub fn number_of(bytes: &[u8]) -> u64
    requires { length bytes.now ≤ 8 }
    ensures { result ≡ num (bits_of bytes.now) }
{
    let mut number = 0;
    for byte in bytes {
        number = (number << 8) | u64::from(*byte);
    }
    number
}

/// Lays the last bits of a number over bytes, the last byte first.
#[tactic(auto, using(crate::proofs::Numbers::lay_none, crate::proofs::Numbers::lay_next, crate::proofs::Numbers::lay_end))]
pub fn lay(bytes: &mut [u8], number: u64)
    ensures { bits_of bytes.new ≡ bits (8 * length bytes.old) number }
{
    let mut rest = number;
    // Stays: an index, since nothing is known of the elements behind `iter_mut().rev()`, and `to_be_bytes` makes eight bytes to copy at most five.
    for i in (0..bytes.len()).rev() {
        bytes[i] = (rest & 0xff) as u8;
        rest >>= 8;
    }
}
