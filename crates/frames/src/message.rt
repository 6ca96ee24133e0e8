// What travels on the cable, as values. A message says for how many sites its rack was built; only the first n * n counts of a matrix, and the
// first n of a column, travel.
// Stays: `sites` is a plain number, since a bound in the type would ask of everyone who builds a message what only the three writings ask.
use clocks::matrix::Matrix;
use clocks::row::Row;

/// A write, for a holder of its register. Sender and number are its label.
#[derive(Drop)]
pub struct Update<V> {
    pub sites: u8,
    pub sender: u8,
    pub register: u16,
    pub number: u32,
    pub matrix: Matrix,
    pub value: V,
}

/// A question for a register's home, with the home's column of what the reader knows.
#[derive(Clone, Copy)]
pub struct Fetch {
    pub sites: u8,
    pub reader: u8,
    pub home: u8,
    pub register: u16,
    pub number: u32,
    pub column: Row,
}

/// The home's copy of a register, for the reader that asked; without label if the register was never written.
#[derive(Drop)]
pub struct Reply<V> {
    pub sites: u8,
    pub home: u8,
    pub reader: u8,
    pub register: u16,
    pub number: u32,
    pub label: Option<(u8, u32)>,
    pub matrix: Matrix,
    pub value: V,
}
