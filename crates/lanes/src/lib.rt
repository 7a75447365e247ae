// The pieces of each holder in the order in which they are picked, and a log of their receipts: a move of pieces takes
// the time of those that it moves. What is promised is said of the pieces in order of receipt; how memory holds them,
// none but this crate sees.
#![tactic(auto)]

ghost use Rattle.std.specs.Prelude.{◌≡◌, ◌≤◌, ◌<◌, ◌*◌, [], length};
ghost use Rattle.table.specs.Table.{lay};
ghost use Rattle.taking.specs.Stirring.{stirred_rule};
ghost use Rattle.taking.specs.Applied.{full};
ghost use Rattle.lanes.specs.Store.{fresh};
ghost use Rattle.lanes.specs.Lanes.{taken_of, Movable, Moves};

use std::marker::Model;
use table::{PLACES, Piece};
use taking::{Applied, Move};

mod keys; // keys.rt: the picking order by numbers
mod links; // links.rt: the lanes, each a chain of slots
mod log; // log.rt: the order of receipt
mod moves; // moves.rt: a move, step by step
mod steps; // steps.rt: the steps of a move

// So many holders have a lane.
pub const LANES: usize = 64;

// A link leads from each slot, and from the start of each lane.
const LINKS: usize = PLACES + LANES;

// So many notes fit in the log.
const NOTES: usize = 16384;

// A slot holds one piece for good: pieces never become fewer. Each holder's slots lie in a lane in picking order, and
// the log tells the order of receipt: a slot's last note is its place in it. A slot's key tells whether it goes before
// another. Where a slot may join a lane soon is a hint.
#[derive(Drop)]
struct Store {
    pieces: [Piece; PLACES],
    keys: [u32; PLACES],
    next: [u16; LINKS],
    hints: [u16; LANES],
    log: [u16; NOTES],
    spare: [u16; PLACES],
    count: usize,
    noted: usize,
}

impl Store {
    // No slot is in use, and every lane is empty.
    #[tactic(auto, unfolding(crate::specs::Store::fresh))]
    fn new() -> Self
        ensures { result ≡ fresh }
    {
        let none = Piece {
            holder: 0,
            origin: 0,
            birth: 0,
            weight: 0,
        };
        Store {
            pieces: [none; PLACES],
            keys: [0; PLACES],
            next: [0; LINKS],
            hints: [0; LANES],
            log: [0; NOTES],
            spare: [0; PLACES],
            count: 0,
            noted: 0,
        }
    }
}

// The pieces of a book whose vessels all have one rule, in order of receipt.
#[derive(Drop)]
pub struct Lanes {
    rule: u32,
    store: Store,
}

impl Model for Lanes {
    ghost use Rattle.lanes.specs.Lanes.{Contents};

    ghost Value = { Contents };

    ghost use Rattle.lanes.specs.Store.{contents, InOrder};

    ghost view = { λ lanes. contents lanes.rule lanes.store };

    ghost invariant = { λ lanes. InOrder lanes.rule lanes.store };
}

impl Lanes {
    // No pieces, under one of the four first rules.
    #[tactic(auto, using(crate::proofs::Fresh::fresh_order, crate::proofs::Fresh::fresh_contents))]
    pub fn new(rule: u32) -> Self
        requires { rule < stirred_rule }
        ensures { result ≡ record { rule = rule; pieces = [] } }
    {
        Lanes {
            rule,
            store: Store::new(),
        }
    }

    // Whether there is no place for what the move would leave.
    fn is_full(&self, places: usize, m: Move) -> bool
        requires { Movable places m self.now }
        ensures { result ≡ full places m (taken_of m self.now) }
    {
        if self.store.count < places {
            return false;
        }
        self.store.left_over(m.source, m.weight) != 0
    }

    // Moves the weight and says what was done, or answers `None` where the pieces afterwards would exceed the places,
    // and moves nothing.
    pub fn move_pieces(&mut self, places: usize, m: Move) -> Option<Applied>
        requires { Movable places m self.old }
        ensures { Moves places m self.old self.new result }
    {
        if self.is_full(places, m) {
            return None;
        }
        let rule = self.rule;
        self.store.make_room(rule);
        Some(self.store.carry_out(rule, m))
    }

    // The pieces are written into a table.
    pub fn lay(&mut self, table: &mut [u32])
        requires { 4 * length self.old.pieces ≤ length table.old }
        ensures { (table.new ≡ lay self.old.pieces table.old) × (self.new ≡ self.old) }
    {
        self.store.close();
        self.store.write(table);
    }
}
