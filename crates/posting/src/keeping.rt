// The lent table keeps a book's pieces.
ghost use Rattle.std.specs.Prelude.{⊤};

use book::{Head, Motion};
use ledger::rules;
use motions::balances;
use motions::keeping::Keeping;
use moving::{Holding, Workspace};
use taking::Applied;

// The pieces lie in the table; memory to work in goes along, so that many postings in turn make it once.
#[derive(Drop)]
pub struct TableKeeping {
    work: Workspace,
}

impl TableKeeping {
    pub fn new() -> Self {
        TableKeeping {
            work: Workspace::new(),
        }
    }
}

// It carries every motion.
impl Keeping for TableKeeping {
    ghost written = { λ kept t. t };

    ghost keeps = { λ kept h t. ⊤ };

    ghost carries = { λ h m. ⊤ };

    ghost leaves = { λ t t'. ⊤ };

    ghost untouched = { λ t. tt };

    fn carry(&mut self, head: &Head, table: &mut [u32], m: Motion) -> Option<Applied> {
        let n = head.pieces as usize;
        let places = table::places(table);
        let from = Holding {
            rule: rules::rule_at(head, m.moves.source),
            balance: balances::balance_at(head, m.moves.source),
        };
        moving::move_pieces(table, n, places, from, m.moves, &mut self.work)
    }
}
