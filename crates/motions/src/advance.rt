// The head after a motion: two balances change.
ghost use Rattle.std.specs.Prelude.{◌≡◌};
ghost use Rattle.motions.specs.Carrying.{next_head, Countable};

use super::balances;
use book::{Head, Motion};
use taking::Applied;

// The head goes on: a motion's pieces were moved so.
pub fn advance(head: &mut Head, m: Motion, moved: Applied)
    requires { Countable head.old m moved }
    ensures { head.new ≡ next_head head.old m moved }
{
    let accepted = head.accepted + m.counts;
    balances::shift(
        head,
        m.moves.source,
        m.moves.weight - moved.born,
        m.moves.destination,
        m.moves.weight,
    );
    head.pieces = moved.count as u32;
    head.last = m.minute;
    head.accepted = accepted;
}
