// Merging two sheets, for callers in C or Rust.
#![tactic(auto)]

ghost use Rattle.merge_spec.specs.Merge.{Merges};

// The merged sheet's length, with 0 in `number` and in `line`; or 0, with the refusal's number and its line.
#[unsafe(no_mangle)]
pub extern "C" fn rack_merge_sheets(
    first: &[u8],
    second: &[u8],
    out: &mut [u8],
    number: &mut u32,
    line: &mut u32,
) -> usize
    ensures { Merges first.now second.now out.old (record { length = result; number = number.new; line = line.new }) out.new }
{
    match merge::merge_sheets(first, second, out) {
        Ok(length) => {
            *number = 0;
            *line = 0;
            length
        }
        Err(why) => {
            *number = why.refusal.number();
            *line = why.line;
            0
        }
    }
}
