// Lanes keep a book's pieces beside the table, which is only looked at.
ghost use Rattle.std.specs.Prelude.{◌≡◌, refl};
ghost use Rattle.table.specs.Table.{lay};
ghost use Rattle.lane_book.specs.InLanes.{InLanes, BetweenVessels};

use book::{Head, Motion};
use lanes::Lanes;
use motions::keeping::Keeping;
use taking::Applied;

// The pieces of a book in lanes.
#[derive(Drop)]
pub struct LaneKeeping {
    pub lanes: Lanes,
}

impl Keeping for LaneKeeping {
    ghost written = { λ kept t. lay kept.lanes.pieces t };

    ghost keeps = { λ kept h t. InLanes h kept.lanes t };

    ghost carries = { λ h m. BetweenVessels h m };

    ghost leaves = { λ t t'. t' ≡ t };

    ghost untouched = { λ t. refl };

    #[tactic(auto, using(crate::proofs::InLanes::movable))]
    fn carry(&mut self, _head: &Head, table: &mut [u32], m: Motion) -> Option<Applied> {
        self.lanes.move_pieces(table::places(table), m.moves)
    }
}
