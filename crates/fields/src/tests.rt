// Fields at the edges of bytes, by the bits that they should make.
use crate::field::{get, put};
use crate::row::{get_row, put_row};
use crate::run::copy;

#[test]
fn across_bytes(rt: HostRuntime) {
    let mut place = [0xff; 6];
    put(&mut place, 3, 8, 0);
    assert_eq!(rt; place, [0xe0, 0x1f, 0xff, 0xff, 0xff, 0xff]);
    put(&mut place, 11, 32, 0x8000_0001);
    assert_eq!(rt; place, [0xe0, 0x10, 0x00, 0x00, 0x00, 0x3f]);
    assert_eq!(rt; get(&place, 11, 32), 0x8000_0001);
    assert_eq!(rt; get(&place, 0, 3), 7);
    assert_eq!(rt; get(&place, 47, 1), 1);
}

#[test]
fn only_the_last_bits(rt: HostRuntime) {
    let mut place = [0; 2];
    put(&mut place, 4, 3, 0xffff_fffd);
    assert_eq!(rt; place, [0x0a, 0x00]);
    put(&mut place, 16, 0, 0xffff_ffff);
    assert_eq!(rt; place, [0x0a, 0x00]);
}

#[test]
fn runs(rt: HostRuntime) {
    let from = [0x12, 0x34, 0x56, 0x78, 0x9a, 0xbc];
    let mut place = [0; 7];
    copy(&mut place, 4, &from, 0, 48);
    assert_eq!(rt; place, [0x01, 0x23, 0x45, 0x67, 0x89, 0xab, 0xc0]);
    copy(&mut place, 0, &from, 44, 4);
    assert_eq!(rt; place, [0xc1, 0x23, 0x45, 0x67, 0x89, 0xab, 0xc0]);
}

#[test]
fn rows(rt: HostRuntime) {
    let mut place = [0; 7];
    put_row(&mut place, 4, &[0x00ab_cdef, 16_777_215]);
    assert_eq!(rt; place, [0x0a, 0xbc, 0xde, 0xff, 0xff, 0xff, 0xf0]);
    let mut row = [0; 2];
    get_row(&place, 4, &mut row);
    assert_eq!(rt; row, [0x00ab_cdef, 16_777_215]);
}
