// Reads a sheet of offers from standard input, and prints its plan, or the refusal with layer, number and place.
#![tactic(auto)]

ghost use Rattle.std.specs.Prelude.{◌≤◌, length, IfOk};

use answer::answer;
use anyhow::anyhow;
use sheet::reader::LONGEST;
use sources::list_source::MOST_OFFERS;
use sources::offer::Offer;
use std::io;
use std::io::{Read, Write};

// One byte more than the longest sheet, so that a longer one is seen to be longer and no more of it is read.
const ROOM: usize = LONGEST + 1;

// Fills the buffer from the input, to the end of either, and says how far.
fn fill<R: Read>(input: &mut R, buffer: &mut [u8]) -> io::Result<usize>
    ensures { IfOk result (λ len. len ≤ length buffer.new) }
{
    // A loop: reading to the end wants memory, and reading a full buffer refuses a shorter input.
    let mut len = 0;
    while len < buffer.len() {
        let count = input.read(&mut buffer[len..])?;
        if count == 0 {
            break;
        }
        len += count;
    }
    Ok(len)
}

fn main(rt: HostRuntime) -> anyhow::Result<()> {
    let mut input = [0u8; ROOM];
    let len = fill(&mut rt.stdin(), &mut input)?;
    let mut slots = [Offer::default(); MOST_OFFERS];
    let mut text = [0u8; report::LONGEST];
    let count = answer(&input[..len], &mut slots, &mut text).map_err(|_| anyhow!(
        "the answer is longer than its buffer"
    ))?;
    rt.stdout().write_all(&text[..count])?;
    Ok(())
}
