// The plan of a transfer. Nothing is written.
ghost use Rattle.std.specs.Prelude.{◌≡◌, cond, false, eqb, leb};
ghost use Rattle.picking.specs.Plan.{in_order, plan_from};

use crate::selection::Order;
use table::reading::Pieces;

// How many pieces go whole, and the weight still wanted then.
#[derive(Clone, Copy)]
pub struct Plan {
    pub whole: usize,
    pub left: u32,
}

impl Plan {
    // Whether the plan wants a place more, and none is free.
    pub fn is_full(self, n: usize, places: usize) -> bool
        ensures { result ≡ cond (eqb self.left 0) false (leb places n) }
    {
        self.left != 0 && places <= n
    }
}

// The plan for a weight, with the keys in order.
#[tactic(auto, using(crate::proofs::Walk::plan_end))]
pub fn plan_of(pieces: &Pieces, order: Order, weight: u32) -> Plan
    ensures { result ≡ plan_from 0 (in_order order.entry) weight pieces.now }
{
    let mut left = weight;
    for c in 0..order.keys.len() {
        let p = pieces.get(order.nth(c)).unwrap_or_default();
        if left == 0 || left < p.weight {
            return Plan { whole: c, left };
        }
        left -= p.weight;
    }
    Plan {
        whole: order.keys.len(),
        left,
    }
}
