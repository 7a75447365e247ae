// A book whose pieces lie in lanes, so that a transfer takes the time of the pieces that it moves. It stands beside a
// table that is lent, which is written once, when the book is closed.
#![tactic(auto)]

ghost use Rattle.std.specs.Prelude.{◌≡◌};
ghost use Rattle.refusal.specs.Numbers.{first};
ghost use Rattle.book.specs.Head.{open_checks};
ghost use Rattle.lane_book.specs.LaneBook.{written, Stands, Opened, Enters};

use book::{Head, Transfer};
use keeping::LaneKeeping;
use lanes::Lanes;
use refusal::Refusal;
use taking::Applied;

mod keeping; // keeping.rt: lanes keep a book's pieces

// A book on which no rule is set and nothing is lifted: its head, and its pieces in lanes.
#[derive(Drop)]
pub struct LaneBook {
    head: Head,
    kept: LaneKeeping,
}

impl LaneBook {
    // A fresh book.
    pub fn open(rule: u32, vessels: u32) -> Self
        requires { first (open_checks rule vessels) ≡ 0 }
        ensures { Opened rule vessels result }
    {
        LaneBook {
            head: ledger::opening::empty_head(rule, vessels),
            kept: LaneKeeping {
                lanes: Lanes::new(rule),
            },
        }
    }

    // A transfer on the book. The pieces go from lane to lane; the lent table is not written.
    pub fn post(&mut self, table: &mut [u32], x: Transfer) -> Result<Applied, Refusal>
        requires { Stands self.old table.old }
        ensures { Enters x self.old self.new table.old table.new result }
    {
        motions::post_known(&mut self.head, table, &mut self.kept, x)
    }

    // The pieces are written into the table; the answer is the head.
    pub fn close(&mut self, table: &mut [u32]) -> Head
        requires { Stands self.old table.old }
        ensures { (table.new ≡ written self.old table.old) × (result ≡ self.old.head) × (self.new ≡ self.old) }
    {
        self.kept.lanes.lay(table);
        self.head
    }
}
