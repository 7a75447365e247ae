// What keeps a book's pieces: they lie in the lent table, or beside it until they are written into it.
ghost use Rattle.std.specs.Prelude.{List, ℕ};
ghost use Rattle.book.specs.declared.Head.{Head};
ghost use Rattle.book.specs.declared.Motion.{Motion};
ghost use Rattle.book.specs.Memory.{Audited};
ghost use Rattle.motions.specs.Carrying.{Carriable, head_after, MovesBy};

use book::{Head, Motion};
use taking::Applied;

// A keeping of pieces, beside a table that is lent.
pub trait Keeping {
    // The lent table with the pieces written into it.
    ghost written: { Self → List ℕ → List ℕ };

    // It keeps the pieces of a book with this head, and the lent table has room for them.
    ghost keeps: { Self → Head → List ℕ → Type 0 };

    // The motions that it can carry, of a book with this head.
    ghost carries: { Head → Motion → Type 0 };

    // What carrying may do to the lent table.
    ghost leaves: { List ℕ → List ℕ → Type 0 };

    // Moves the pieces of a motion and says what was done, or answers `None` where the pieces afterwards would exceed
    // the places, and moves nothing.
    fn carry(&mut self, head: &Head, table: &mut [u32], m: Motion) -> Option<Applied>
        requires known { Audited head.now (written self.old table.old) }
        requires carriable { Carriable head.now m }
        requires kept { keeps self.old head.now table.old × carries head.now m }
        ensures moves { MovesBy head.now m (written self.old table.old) (written self.new table.new) result }
        ensures kept { keeps self.new (head_after head.now m result) table.new }
        ensures leaves { leaves table.old table.new };

    // It may leave it as it was.
    ghost untouched: { (t : List ℕ) → leaves t t };
}
