// The program that merges: reads the sheets in the two files that its arguments name, and writes the sheet made of them to standard
// output; or, where they are refused, nothing there, and the refusal's number and line to standard error.
#![tactic(auto)]

ghost use Rattle.std.specs.Prelude.{◌≤◌, length, IfOk};

use input::read_full;
use merge::LEAST_MERGE_BUFFER;
use sheet::LONGEST_SHEET;
use std::io::{self, Write};
use std::rt::{Env, Files};
use std::{env, fs};

// Reads a file, one byte more than the longest sheet at most, so that a longer one is seen to be too long. Of a file that cannot be
// opened it says why, and nothing is read.
fn read_file(rt: &(impl Files + Eprint), path: &str, text: &mut [u8]) -> io::Result<usize>
    ensures { IfOk result (λ n. n ≤ length text.new) }
{
    match fs::open(rt, path) {
        Ok(mut file) => Ok(read_full(&mut file, text)),
        Err(why) => {
            eprintln!(rt; "{path}: {why}")?;
            Ok(0)
        }
    }
}

// Reads the file that argument i names.
fn read_argument(
    rt: &(impl Files + Env + Alloc + Eprint),
    i: usize,
    text: &mut [u8],
) -> io::Result<usize>
    ensures { IfOk result (λ n. n ≤ length text.new) }
{
    match env::args(rt)?.nth(i) {
        Some(path) => read_file(rt, path.as_str(), text),
        None => read_file(rt, "", text),
    }
}

fn main(rt: HostRuntime) -> io::Result<()> {
    let mut first = [0u8; LONGEST_SHEET + 1];
    let mut second = [0u8; LONGEST_SHEET + 1];
    let n = read_argument(&rt, 1, &mut first)?;
    let m = read_argument(&rt, 2, &mut second)?;
    let mut out = [0u8; LEAST_MERGE_BUFFER];
    match merge::merge_sheets(&first[..n], &second[..m], &mut out) {
        Ok(length) if rt.stdout().write_all(&out[..length]).is_ok() => Ok(()),
        Ok(_) => {
            eprintln!(&rt; "rack_merge: the merged sheet could not be written whole; do not use it")
        }
        Err(why) => eprintln!(&rt; "{why}"),
    }
}
