// The parts that frames share: how they open, the counts, the value and the filling.
// Stays: positions are plain numbers, since each part begins where the one before it ends, so their bounds stand in a `requires` of each part.
ghost use Rattle.std.specs.Prelude.{◌≡◌, ◌+◌, ◌-◌, ◌*◌, ◌^◌, ◌<◌, ◌≤◌, ◌++◌, ◌==◌, length, nat_le, nat_lt, Ok, Err, IfOk, IfErr};
ghost use Rattle.std.specs.List.{AllByRecursion};
ghost use Rattle.fields.specs.Bits.{bits_of};
ghost use Rattle.fields.specs.Fields.{field, row as row_of, splice};
ghost use Rattle.values.specs.Refusals.{of_site};
ghost use Rattle.values.specs.declared.fault.Refusal.TheVariants.{NoRoom};
ghost use Rattle.frames.specs.FrameKinds.{kind_number};
ghost use Rattle.frames.specs.Layouts.{span, laid, bytes_for, filling};
ghost use Rattle.frames.specs.Reading.{check, opened as opened_by, filled as filled_at, counts_at, value_at};

use crate::kind::Kind;
use clocks::matrix::area;
use clocks::seat::SiteCount;
use fields::field::{get, put};
use fields::row::{get_row, put_row};
use fields::run::copy;
use values::fault::{Fault, Refusal};
use values::kind::{Bits, ValueKind};

/// How many bytes some bits take.
pub fn bytes_for(bits: usize) -> usize
    requires { bits < 2 ^ 32 }
    ensures { result ≡ bytes_for bits }
{
    bits.div_ceil(8)
}

/// Where a copy ends: behind the head of its frame, a matrix for n sites and a value.
pub fn copy_end<V: ValueKind>(head: usize, n: SiteCount) -> usize
    requires { head < 2 ^ 16 }
    ensures { result ≡ head + 24 * (n.number * n.number) + V.kind.width }
{
    head + 24 * area(n) + V::width() as usize
}

/// The site count of a frame of this kind.
pub fn opened(bytes: &[u8], kind: Kind) -> Result<SiteCount, Fault>
    ensures answer { IfOk result (λ n. opened_by (kind_number kind) bytes.now ≡ Ok n.number) }
    ensures refused { IfErr result (λ e. opened_by (kind_number kind) bytes.now ≡ Err e) }
    ensures range { IfOk result (λ n. 2 ≤ n.number) }
    ensures some { IfOk result (λ _. 1 ≤ length bytes.now) }
{
    if bytes.is_empty() || get(bytes, 0, 4) != kind as u32 {
        return Err(Fault::of_frame(0));
    }
    let n = get(bytes, 4, 4);
    if !(2..=8).contains(&n) {
        return Err(Fault::of_frame(4));
    }
    Ok(SiteCount { number: n as u8 })
}

/// The length test of a frame of some bits. A frame of another length is refused at bit 8.
pub fn sized(bytes: &[u8], end: usize) -> Result<(), Fault>
    requires { end < 2 ^ 32 }
    ensures { result ≡ check (length bytes.now == bytes_for end) 8 (Ok tt) }
{
    if bytes.len() == bytes_for(end) {
        Ok(())
    } else {
        Err(Fault::of_frame(8))
    }
}

/// The site from a bit on, one of n.
pub fn site(bytes: &[u8], at: usize, n: u8) -> Result<u8, Fault>
    requires { (at < 2 ^ 32) × (at + 3 ≤ 8 * length bytes.now) }
    ensures { result ≡ check (nat_lt (field (bits_of bytes.now) at 3) n) at (Ok (field (bits_of bytes.now) at 3)) }
{
    let site = get(bytes, at, 3);
    if site < u32::from(n) {
        Ok(site as u8)
    } else {
        Err(Fault::of_frame(at as u32))
    }
}

/// The number from a bit on. Numbers count from 1.
pub fn number(bytes: &[u8], at: usize) -> Result<u32, Fault>
    requires { (at < 2 ^ 32) × (at + 24 ≤ 8 * length bytes.now) }
    ensures { result ≡ check (nat_le 1 (field (bits_of bytes.now) at 24)) at (Ok (field (bits_of bytes.now) at 24)) }
{
    let number = get(bytes, at, 24);
    if number >= 1 {
        Ok(number)
    } else {
        Err(Fault::of_frame(at as u32))
    }
}

/// The first counts of a table of N, from a bit on.
pub fn counts<const N: usize>(bytes: &[u8], at: usize, count: usize) -> [u32; N]
    requires { (count ≤ N) × ((N ≤ 64) × ((at < 2 ^ 32) × (at + 24 * count ≤ 8 * length bytes.now))) }
    ensures { result ≡ counts_at (bits_of bytes.now) at N count }
{
    let mut counts = [0; N];
    get_row(bytes, at, &mut counts[..count]);
    counts
}

/// The value from a bit on; a refusal's place is counted from the frame's start.
pub fn value<V: ValueKind + Drop>(bytes: &[u8], at: usize) -> Result<V, Fault>
    requires { (at < 2 ^ 31) × (at + V.kind.width ≤ 8 * length bytes.now) }
    ensures { result ≡ value_at V.kind (bits_of bytes.now) at }
{
    let mut bits = Bits { bytes: [0; 32] };
    copy(&mut bits.bytes, 0, bytes, at, V::width() as usize);
    V::read(&bits).map_err(|fault| fault.counted_from(at as u32))
}

/// The test of the filling: the bits behind the first `end` are zero, or they are refused.
pub fn filled(bytes: &[u8], end: usize) -> Result<(), Fault>
    requires { (end < 2 ^ 32) × ((end ≤ 8 * length bytes.now) × (8 * length bytes.now ≤ end + 7)) }
    ensures { result ≡ check (filled_at bytes.now end) end (Ok tt) }
{
    if get(bytes, end, (8 * bytes.len() - end) as u32) == 0 {
        Ok(())
    } else {
        Err(Fault::of_frame(end as u32))
    }
}

// Lays fields one after the other, from the first bit on: of each its width and its number.
// The next field begins where this one ends.
fn put_fields(place: &mut [u8], fields: &[(u32, u32)])
    requires narrow { AllByRecursion (λ f. f.0 ≤ 32) fields.now }
    requires room { (span fields.now < 2 ^ 32) × (span fields.now ≤ 8 * length place.old) }
    ensures { bits_of place.new ≡ splice (bits_of place.old) 0 (laid fields.now) }
{
    let mut at = 0;
    for &(width, number) in fields {
        put(place, at, width, number);
        at += width as usize;
    }
}

/// Begins a frame of `size` bytes with its fields. A place that is too short is refused with 18 and stays as it was.
pub fn begin(place: &mut [u8], size: usize, fields: &[(u32, u32)]) -> Result<(), Fault>
    requires narrow { AllByRecursion (λ f. f.0 ≤ 32) fields.now }
    requires room { (span fields.now < 2 ^ 32) × (span fields.now ≤ 8 * size) }
    ensures fits { IfOk result (λ _. (size ≤ length place.old) × (bits_of place.new ≡ splice (bits_of place.old) 0 (laid fields.now))) }
    ensures refused { IfErr result (λ e. (e ≡ of_site NoRoom) × ((length place.old < size) × (place.new ≡ place.old))) }
{
    if place.len() < size {
        return Err(Fault::of_site(Refusal::NoRoom));
    }
    put_fields(place, fields);
    Ok(())
}

// Lays the zeros that fill the last byte behind a frame's first `end` bits.
fn put_filling(place: &mut [u8], end: usize)
    requires { (end < 2 ^ 32) × (bytes_for end ≤ length place.old) }
    ensures { bits_of place.new ≡ splice (bits_of place.old) end (filling end) }
{
    put(place, end, (8 * bytes_for(end) - end) as u32, 0);
}

/// Lays a copy behind a frame's fields: counts, a value, and zeros that fill the last byte.
pub fn put_copy<V: ValueKind>(place: &mut [u8], at: usize, counts: &[u32], value: &V)
    requires { (at + 24 * length counts.now < 2 ^ 31) × (bytes_for (at + 24 * length counts.now + V.kind.width) ≤ length place.old) }
    ensures { bits_of place.new ≡ splice (bits_of place.old) at (row_of 24 counts.now ++ (V.kind.bits value.now ++ filling (at + 24 * length counts.now + V.kind.width))) }
{
    put_row(place, at, counts);
    let from = at + 24 * counts.len();
    let width = V::width() as usize;
    copy(place, from, &value.write().bytes, 0, width);
    let end = from + width;
    put_filling(place, end);
}

/// Lays a column behind a frame's fields: counts, and zeros that fill the last byte.
pub fn put_column(place: &mut [u8], at: usize, counts: &[u32])
    requires { (at + 24 * length counts.now < 2 ^ 31) × (bytes_for (at + 24 * length counts.now) ≤ length place.old) }
    ensures { bits_of place.new ≡ splice (bits_of place.old) at (row_of 24 counts.now ++ filling (at + 24 * length counts.now)) }
{
    put_row(place, at, counts);
    put_filling(place, at + 24 * counts.len());
}
