// The pieces part of a transfer, in a constant number of passes over the table: what the source's rule takes is found
// first, and only if there is room for what it leaves is anything written. A stirred source gives from all its pieces,
// any other from one after the other.
#![tactic(auto)]

ghost use Rattle.std.specs.Prelude.{◌≡◌};
ghost use Rattle.table.specs.Pieces.{held};
ghost use Rattle.table.specs.Table.{pieces_of};
ghost use Rattle.taking.specs.Taking.{taken};
ghost use Rattle.taking.specs.Applied.{Moves};
ghost use Rattle.moving.specs.Ready.{Ready};

use std::marker::Model;
use taking::{AS_RECEIVED, Applied, Move, STIRRED};

mod apply; // apply.rt: a plan is applied
mod singly; // singly.rt: one piece after the other goes
mod stirring; // stirring.rt: every piece gives

// The memory for keys, or for what each piece gives, and as much to sort keys: one for each place.
pub const KEYS: usize = table::PLACES;

// The memory for lifted pieces has room for every place and one piece more: the part of the one split, or what is born.
const LIFTED_PLACES: usize = table::PLACES + 1;

// Its length, four numbers for a piece.
pub const LIFTED: usize = 4 * LIFTED_PLACES;

// What a source has: the rule by which it gives, and its balance.
#[derive(Clone, Copy)]
pub struct Holding {
    pub rule: u32,
    pub balance: u32,
}

// Memory to work in, for keys or gifts, to sort keys, and for lifted pieces. What it holds is no part of its value, so
// that no contract can speak of it, and none has to.
#[derive(Drop)]
pub struct Workspace {
    keys: [u64; KEYS],
    spare: [u64; KEYS],
    lifted: [u32; LIFTED],
}

impl Model for Workspace {
    ghost Value = { Unit {0} };

    ghost view = { λ work. tt };
}

impl Workspace {
    pub fn new() -> Self {
        Workspace {
            keys: [0; KEYS],
            spare: [0; KEYS],
            lifted: [0; LIFTED],
        }
    }
}

// Moves the weight from source to destination as the source gives, and says what was done. If the pieces afterwards
// would exceed the places, the table is not written and the answer is `None`.
pub fn move_pieces(
    table: &mut [u32],
    n: usize,
    places: usize,
    from: Holding,
    m: Move,
    work: &mut Workspace,
) -> Option<Applied>
    requires { Ready n places m table.old × (from.balance ≡ held m.source (pieces_of n table.old)) }
    ensures { Moves places m (taken from.rule m (pieces_of n table.old)) table.old table.new result }
{
    if from.rule != STIRRED {
        return singly::move_singly(table, n, places, from.rule, m, work);
    }
    if m.weight < from.balance {
        return stirring::move_stirred(table, n, places, from.balance, m, work);
    }
    singly::move_singly(table, n, places, AS_RECEIVED, m, work)
}
