// Input into fixed memory: as much of it as the room holds.
#![tactic(auto)]

ghost use Rattle.std.specs.Prelude.{IfOk, OnErr};
ghost use Rattle.input.specs.Filled.{FilledBy, Kept};

use std::io;
use std::io::Read;

// Reads until the room is full or the input ends, and yields how many bytes that were. A read that fails ends it.
pub fn read_full<R: Read>(input: &mut R, room: &mut [u8]) -> io::Result<usize>
    ensures ok { IfOk result (λ n. FilledBy (R.remaining input.old) (R.remaining input.new) room.new n) }
    ensures err { OnErr result (Kept (R.remaining input.old) (R.remaining input.new) room.new) }
{
    let mut done = 0;
    // A `while`: no `for` is plainer, since each read tells how far it went.
    while done < room.len() {
        let n = input.read(&mut room[done..])?;
        if n == 0 {
            return Ok(done);
        }
        done += n;
    }
    Ok(done)
}
