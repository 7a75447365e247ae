// What the library for C promises of a held report, spelled out anew: were its contract gone, or weaker, this would not
// be proved.
ghost use Rattle.std.specs.Prelude.{◌≡◌};
ghost use Rattle.book.specs.declared.Report.TheVariants.{Held};
ghost use Rattle.book.specs.Calls.{ask};
ghost use Rattle.book.specs.Memory.{call_on};

use super::lumchaki_held;
use book::{Head, Reply};

fn held(head: Head, table: &[u32], vessel: u32, room: &mut [u32]) -> Reply
    ensures number { result.number ≡ (call_on head table.now (ask (Held vessel) room.old)).number }
    ensures head { result.head ≡ (call_on head table.now (ask (Held vessel) room.old)).head }
    ensures room { room.new ≡ (call_on head table.now (ask (Held vessel) room.old)).room }
{
    lumchaki_held(head, table, vessel, room)
}
