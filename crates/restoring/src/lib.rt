// Rewrite for C, in a library of its own: each writer, called in one place alone, is compiled into the loop over records.
#![tactic(auto)]

ghost use Rattle.note.specs.Writers.{rewrite_next, rewrite_output};
ghost use Rattle.telling.specs.Told.{Told};

use telling::told_fault;

/// Rewrite: an accepted file written again from its fields, from byte 0 of the output on.
#[unsafe(no_mangle)]
pub extern "C" fn dwj_rewrite(file: &[u8], out: &mut [u8], next: &mut u64, refusal: &mut u64) -> u32
    ensures { Told (rewrite_next file.now out.old) (rewrite_output file.now out.old)
        (record { next = next.old; refusal = refusal.old })
        (record { number = result; next = next.new; refusal = refusal.new }) out.new }
{
    let answer = dwejrasq::rewrite(file, out);
    told_fault(answer, next, refusal)
}
