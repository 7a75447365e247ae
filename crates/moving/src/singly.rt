// One piece after the other goes: the source's pieces are put in picking order, a plan is made, and it is applied.
ghost use Rattle.table.specs.Table.{pieces_of};
ghost use Rattle.taking.specs.Taking.{singly};
ghost use Rattle.taking.specs.Applied.{Moves};
ghost use Rattle.moving.specs.Ready.{Ready};

use super::Workspace;
use super::apply::Withdrawal;
use table::reading::Pieces;
use taking::{Applied, Move};

// Moves the weight as one of the four first rules has it, or answers `None`.
#[tactic(auto, using(table::proofs::Table::length_pieces))]
pub fn move_singly(
    table: &mut [u32],
    n: usize,
    places: usize,
    rule: u32,
    m: Move,
    work: &mut Workspace,
) -> Option<Applied>
    requires { Ready n places m table.old }
    ensures { Moves places m (singly rule m (pieces_of n table.old)) table.old table.new result }
{
    let pieces = Pieces::of(table, n);
    let order = picking::selection::picking_order(
        &pieces,
        rule,
        m.source,
        &mut work.keys,
        &mut work.spare,
    );
    let plan = picking::plan::plan_of(&pieces, order, m.weight);
    if plan.is_full(n, places) {
        return None;
    }
    let withdrawal = Withdrawal {
        count: n,
        order,
        plan,
        asked: m,
    };
    Some(withdrawal.apply(table, &mut work.lifted))
}
