// A move by lanes: whole pieces are handed over one after the other, and what is then still wanted is split off the
// next one or born.
ghost use Rattle.std.specs.Prelude.{◌≡◌, ◌≢◌, ◌<◌, List, ℕ};
ghost use Rattle.taking.specs.Stirring.{stirred_rule};
ghost use Rattle.lanes.specs.Store.{Kept};
ghost use Rattle.lanes.specs.Chains.{start, Chain};
ghost use Rattle.lanes.specs.Lanes.{most_lanes};
ghost use Rattle.lanes.specs.Steps.{Leads};
ghost use Rattle.lanes.specs.Walk.{remains};
ghost use Rattle.lanes.specs.Moving.{Going, Gone, Splitting, SplitOff, Made, Roomy};

use super::{NOTES, Store};
use table::{PLACES, Piece};
use taking::{Applied, Move};

// How far a move has come: so many pieces have gone whole, and so much weight is still wanted.
#[derive(Clone, Copy)]
pub(crate) struct Progress {
    whole: usize,
    left: u32,
}

impl Store {
    // What would still be wanted once whole pieces are handed over. Nothing is moved: a move that is refused leaves all
    // as it was.
    pub(crate) fn left_over(&self, s: u32, want: u32) -> u32
        requires { (s < most_lanes) × Leads (start s) self.now }
        ensures { (line : List ℕ) → Chain self.now.next (start s) line → result ≡ remains self.now.pieces want line }
    {
        let mut left = want;
        let mut f = PLACES + s as usize;
        for _ in 0..PLACES {
            let link = self.next[f] as usize;
            if link == 0 {
                return left;
            }
            let x = link - 1;
            let weight = self.pieces[x].weight;
            if left < weight {
                return left;
            }
            left -= weight;
            f = x;
        }
        left
    }

    // Whole pieces of the source are handed over, one after the other, while they are no heavier than what is wanted.
    fn hand_over_whole(&mut self, rule: u32, m: Move) -> Progress
        requires { Going rule m self.old }
        ensures { Gone rule m self.old self.new result }
    {
        let mut left = m.weight;
        let mut link = self.next[PLACES + m.source as usize] as usize;
        for whole in 0..PLACES {
            if left == 0 || link == 0 {
                return Progress { whole, left };
            }
            let x = link - 1;
            let weight = self.pieces[x].weight;
            if left < weight {
                return Progress { whole, left };
            }
            left -= weight;
            link = self.hand_over(rule, m.source, m.destination, x);
        }
        Progress {
            whole: PLACES,
            left,
        }
    }

    // The piece in slot x gives so much to holder d, in a new slot, and keeps the rest.
    fn split_off(&mut self, rule: u32, d: u32, x: usize, weight: u32)
        requires { Splitting rule d x weight self.old }
        ensures { SplitOff rule d x weight self.old self.new }
    {
        let p = self.pieces[x];
        self.pieces[x] = p.of_weight(p.weight - weight);
        self.add(rule, p.of_weight(weight).hand_to(d));
    }

    // The move is made.
    pub(crate) fn carry_out(&mut self, rule: u32, m: Move) -> Applied
        requires { Going rule m self.old × (rule ≢ stirred_rule) }
        ensures { Made rule m self.old self.new result }
    {
        let Progress { whole, left } = self.hand_over_whole(rule, m);
        let whole = whole as u32;
        if left == 0 {
            return Applied {
                whole,
                split: 0,
                born: 0,
                count: self.count,
            };
        }
        let link = self.next[PLACES + m.source as usize] as usize;
        if link == 0 {
            let piece = Piece {
                holder: m.destination,
                origin: m.source,
                birth: m.birth,
                weight: left,
            };
            self.add(rule, piece);
            return Applied {
                whole,
                split: 0,
                born: left,
                count: self.count,
            };
        }
        self.split_off(rule, m.destination, link - 1, left);
        Applied {
            whole,
            split: 1,
            born: 0,
            count: self.count,
        }
    }

    // The log is closed where it might have no room for the notes of a move.
    pub(crate) fn make_room(&mut self, rule: u32)
        requires { Kept rule self.old }
        ensures { Roomy rule self.old self.new }
    {
        if NOTES - 1 - self.count < self.noted {
            self.close();
        }
    }
}
