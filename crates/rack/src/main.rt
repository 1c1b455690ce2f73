// The rack program: reads a sheet from standard input and writes its answer to standard output.
#![tactic(auto)]

use input::read_full;
use listing::LEAST_BUFFER;
use sheet::LONGEST_SHEET;
use std::io::{self, Write};

// Says on standard error that the listing was not written whole, as on a full disk.
fn report(rt: &impl Eprint, is_written: bool) -> io::Result<()> {
    if !is_written {
        eprintln!(rt; "rack: the listing could not be written whole; do not use it")?;
    }
    Ok(())
}

fn main(rt: HostRuntime) -> io::Result<()> {
    // One byte more than the longest sheet, so that a longer one is seen to be too long.
    let mut text = [0u8; LONGEST_SHEET + 1];
    let n = read_full(&mut rt.stdin(), &mut text);
    let mut out = [0u8; LEAST_BUFFER];
    let reply = listing::answer_sheet(&text[..n], &mut out);
    let length = reply.length;
    let is_written = rt.stdout().write_all(&out[..length]).is_ok();
    report(&rt, is_written)
}
