// A plan is applied: what goes is lifted out of the table, the rest closes up, and what was lifted is put at the end.
ghost use Rattle.std.specs.Prelude.{◌≡◌, ◌<◌, ◌≤◌};
ghost use Rattle.table.specs.Table.{most_places};
ghost use Rattle.picking.specs.Plan.{count_of};
ghost use Rattle.moving.specs.Parts.{Room, LiftsOne, Lifts, Splits, Follows, Gathers, plan_answer, Applicable, Applies};

use super::{LIFTED, LIFTED_PLACES};
use picking::plan::Plan;
use picking::selection::Order;
use table::{Piece, closing};
use taking::{Applied, Move};

// What a move takes out of a table of so many pieces: those that the plan takes of the order. The table and the memory
// for lifted pieces are not in it: each step writes both, and asks that they have room.
#[derive(Clone, Copy)]
pub struct Withdrawal<'a> {
    pub count: usize,
    pub order: Order<'a>,
    pub plan: Plan,
    pub asked: Move,
}

impl<'a> Withdrawal<'a> {
    // The piece that is picked as number c is copied to place c of the lifted, with its new holder, and its place is
    // vacant.
    fn lift_one(self, table: &mut [u32], lifted: &mut [u32; LIFTED], c: usize)
        requires { Room self table.old × (c < self.plan.whole) }
        ensures { LiftsOne self.entry c table.old lifted.old table.new lifted.new }
    {
        let i = self.order.nth(c);
        let p = table::piece_or_default(table, self.count, i);
        table::put_piece(lifted, LIFTED_PLACES, c, p.hand_to(self.asked.destination));
        table::put_if_there(table, self.count, i, p.hand_to(closing::VACANT));
    }

    // The pieces that go whole are lifted.
    #[tactic(auto, unfolding(table::specs::Table::pieces_of))]
    fn lift(self, table: &mut [u32], lifted: &mut [u32; LIFTED])
        requires { Room self table.old }
        ensures { Lifts self.entry table.old table.new lifted.new }
    {
        for c in 0..self.plan.whole {
            self.lift_one(table, lifted, c);
        }
    }

    // The piece that follows those that go whole is split: the part still wanted is put behind the lifted, with its new
    // holder.
    fn split_next(self, table: &mut [u32], lifted: &mut [u32; LIFTED])
        requires { Room self table.old × (self.plan.whole < count_of self.order) }
        ensures { Splits self.entry table.old lifted.old table.new lifted.new }
    {
        let Plan { whole, left } = self.plan;
        let i = self.order.nth(whole);
        let p = table::piece_or_default(table, self.count, i);
        let rest = p.weight.saturating_sub(left);
        table::put_piece(
            lifted,
            LIFTED_PLACES,
            whole,
            p.of_weight(left).hand_to(self.asked.destination),
        );
        table::put_if_there(table, self.count, i, p.of_weight(rest));
    }

    // What follows the whole ones is lifted too: the part of a split, what is born, or nothing. The answer is the count
    // of the lifted.
    fn put_remainder(self, table: &mut [u32], lifted: &mut [u32; LIFTED]) -> usize
        requires { Room self table.old }
        ensures { Follows self.entry table.old lifted.old table.new lifted.new result }
    {
        let Plan { whole, left } = self.plan;
        if left == 0 {
            return whole;
        }
        if whole < self.order.keys.len() {
            self.split_next(table, lifted);
            return whole + 1;
        }
        let born = Piece {
            holder: self.asked.destination,
            origin: self.asked.source,
            birth: self.asked.birth,
            weight: left,
        };
        table::put_piece(lifted, LIFTED_PLACES, whole, born);
        whole + 1
    }

    // All that the plan takes is lifted; the answer is the count of the lifted.
    fn gather(self, table: &mut [u32], lifted: &mut [u32; LIFTED]) -> usize
        requires { Room self table.old }
        ensures { Gathers self.entry table.old table.new lifted.new result }
    {
        self.lift(table, lifted);
        self.put_remainder(table, lifted)
    }

    // The answer where the plan was applied and leaves so many pieces: with a key left, what was still wanted is 1
    // split; without, it is born.
    fn answer(self, count: usize) -> Applied
        requires { (self.plan.whole ≤ count_of self.order) × (count_of self.order ≤ most_places) }
        ensures { result ≡ plan_answer self.entry count }
    {
        let (split, born) = if self.plan.whole < self.order.keys.len() {
            (self.plan.left.min(1), 0)
        } else {
            (0, self.plan.left)
        };
        Applied {
            whole: self.plan.whole as u32,
            split,
            born,
            count,
        }
    }

    // The plan is applied.
    pub fn apply(self, table: &mut [u32], lifted: &mut [u32; LIFTED]) -> Applied
        requires { Room self table.old × Applicable self table.old }
        ensures { Applies self.entry table.old table.new result }
    {
        let g = self.gather(table, lifted);
        let count = closing::settle(table, self.count, self.plan.whole, lifted, g);
        self.answer(count)
    }
}
