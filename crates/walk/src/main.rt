// The walk program: reads R from standard input and writes a line for each Setup step to standard output.
#![tactic(auto)]

use reader_bytes::read_full;
use std::io;
use std::io::{Input, Write};

fn main(rt: HostRuntime) -> io::Result<()> {
    // One byte more than the longest input that is accepted, so that a longer one is seen to be longer.
    let mut input = [0u8; 7];
    let n = read_full(&mut rt.reader(), &mut input)?;
    let mut out = [0u8; walk_text::OUTPUT_BYTES];
    let end = walk_text::walk_output(&input[..n], &mut out);
    io::writer(&rt).write_all(&out[..end])
}
