// The bench: reads a script from standard input and prints its report.
#![tactic(auto)]

use script::report::{LONGEST, report};
use std::io;
use std::io::Read;

// One byte more than the longest script is read, so that a longer one is known.
fn main(rt: HostRuntime) -> io::Result<()> {
    let mut text = Vec::new(rt.alloc());
    rt.stdin().take(LONGEST as u64 + 1).read_to_end(&mut text)?;
    let said = report(rt.alloc(), text.as_slice())?;
    print!(rt; "{said}")
}
