// The steps of a move: a whole piece goes from lane to lane, and a new slot holds a piece more.
ghost use Rattle.lanes.specs.Steps.{Handing, HandedOver, Addable, Added};

use super::{Store, keys};
use table::Piece;

impl Store {
    // The piece in slot x, the first in the lane of holder s, goes to holder d: the answer is the link to what is then the first.
    pub(crate) fn hand_over(&mut self, rule: u32, s: u32, d: u32, x: usize) -> usize
        requires { Handing rule s d x self.old }
        ensures { HandedOver rule s d x self.old self.new result }
    {
        let link = self.leave(s, x);
        self.join(rule, d, x);
        self.pieces[x].holder = d;
        self.receive(x);
        link
    }

    // A new slot holds the piece. As a call of its own it would read the piece from memory just after it was written there, which waits.
    #[inline(always)]
    pub(crate) fn add(&mut self, rule: u32, p: Piece)
        requires { Addable rule p self.old }
        ensures { Added rule p self.old self.new }
    {
        let n = self.count;
        self.pieces[n] = p;
        self.keys[n] = keys::key(rule, p.birth);
        self.join(rule, p.holder, n);
        self.receive(n);
        self.count = n + 1;
    }
}
