// The report call with output buffers one byte too short, just long enough and longer: the refusal, the length of the text, and
// how many bytes of the buffer still hold the 7 that they held before. The texts themselves are compared by tests/report. A write that
// fails goes without a word: what is printed then lacks it.
#![tactic(auto)]

ghost use Rattle.std.specs.Prelude.{◌<◌, ◌^◌};

use std::io;
use testing::output::Steady;

// A buffer that is one byte too short, one that is just long enough, and a longer one.
const SHORT: usize = 1232895;

const EXACT: usize = 1232896;

const LONG: usize = 1232904;

// Makes the call with a buffer of N bytes and prints what came of it. It is not inlined, so that no two of the buffers are there at once.
#[inline(never)]
fn try_report<const N: usize>(rt: &impl Print, input: &[u8]) -> io::Result<()>
    requires { N < 2 ^ 63 }
{
    let mut output = [7u8; N];
    let made = report::report(input, &mut output);
    let kept = output.iter().filter(|byte| **byte == 7).count();
    println!(rt;
        "buffer of {N}: refusal {}, length {}, bytes kept {kept}",
        made.refusal, made.length,
    )
}

fn run(rt: &impl Print) -> io::Result<()> {
    let split = b"(record 0 1 0)\n(limit 3)\n(note (line 2) test)\n(price 1 4)\n(price 1 2)\n";
    let refused = b"(record)\n";
    try_report::<0>(rt, split)?;
    try_report::<SHORT>(rt, split)?;
    try_report::<EXACT>(rt, split)?;
    try_report::<LONG>(rt, split)?;
    try_report::<SHORT>(rt, refused)?;
    try_report::<EXACT>(rt, refused)
}

fn main(rt: HostRuntime) {
    let _ = run(&Steady(&rt));
}
