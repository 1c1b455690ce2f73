// Answering a sheet, for callers in C or Rust.
#![tactic(auto)]

ghost use Rattle.std.specs.Prelude.{◌≡◌, length};
ghost use Rattle.answers.specs.Listing.{reply_of, after_answer};

// The answer's length, with the refusal's number in `number`: 1 for too short a buffer, else the sheet's, 0 where it has none.
#[unsafe(no_mangle)]
pub extern "C" fn rack_answer_sheet(text: &[u8], out: &mut [u8], number: &mut u32) -> usize
    ensures { (result ≡ (reply_of text.now (length out.old)).length)
        × (number.new ≡ (reply_of text.now (length out.old)).number)
        × (out.new ≡ after_answer text.now out.old) }
{
    let reply = listing::answer_sheet(text, out);
    *number = match reply.refusal {
        Some(refusal) => refusal.number(),
        None => 0,
    };
    reply.length
}
