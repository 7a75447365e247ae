// Pieces close up where others have gone, and lifted pieces are put at the end.
ghost use Rattle.std.specs.Prelude.{◌≡◌, ◌++◌, ◌≤◌, ◌+◌, ◌*◌, length};
ghost use Rattle.table.specs.Table.{most_places, pieces_of, lay, over};
ghost use Rattle.table.specs.Closing.{stay, settled, Settling, Closes};

use crate::{piece_at, put_piece};

// A holder that no book can have: it marks a place whose piece has gone.
pub const VACANT: u32 = u32::MAX;

// The pieces that are not vacant close up; the answer is their count. The numbers that this frees are left as they are.
// Table and count stand beside each other here and below: the table is lent by C, and written in place or read between
// two writes.
#[tactic(auto, using(crate::proofs::ClosingUp::close_start, crate::proofs::ClosingUp::close_end))]
fn close_up(table: &mut [u32], n: usize) -> usize
    requires { (n ≤ most_places) × (4 * n ≤ length table.old) }
    ensures { Closes n table.old table.new result }
{
    let mut j = 0;
    for i in 0..n {
        let p = piece_at(table, n, i);
        if p.holder != VACANT {
            put_piece(table, n, j, p);
            j += 1;
        }
    }
    j
}

// The same, where it is known how many have gone: if none has, there is nothing to do.
fn close_gaps(table: &mut [u32], n: usize, gone: usize) -> usize
    requires { (n ≤ most_places) × (4 * n ≤ length table.old) × (length (stay (pieces_of n table.old)) + gone ≡ n) }
    ensures { Closes n table.old table.new result }
{
    if gone == 0 { n } else { close_up(table, n) }
}

// The first g lifted pieces are put at place j and on. As a slice of their own they would be cut at each call, and
// counted again from its length.
pub fn append(table: &mut [u32], j: usize, lifted: &[u32], g: usize)
    requires { (4 * (j + g) ≤ length table.old) × (4 * g ≤ length lifted.now) }
    ensures { table.new ≡ over (j + g) (pieces_of j table.old ++ pieces_of g lifted.now) table.old }
{
    table[4 * j..4 * (j + g)].copy_from_slice(&lifted[..4 * g]);
}

// Of the first n places `gone` are vacant: the pieces of the others close up, and the first g lifted pieces are put
// behind them. As many are lifted as have gone, or more, so that no number is left free. The answer is the count of the
// pieces.
pub fn settle(table: &mut [u32], n: usize, gone: usize, lifted: &[u32], g: usize) -> usize
    requires { Settling n gone g table.old lifted.now }
    ensures { (table.new ≡ lay (settled n table.old g lifted.now) table.old)
        × (result ≡ length (settled n table.old g lifted.now)) }
{
    let j = close_gaps(table, n, gone);
    append(table, j, lifted, g);
    j + g
}
