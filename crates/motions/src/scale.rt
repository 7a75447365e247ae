// Lift and tip as postings.
ghost use Rattle.std.specs.Prelude.{◌≡◌, ◌≤◌};
ghost use Rattle.book.specs.Head.{the_scale};
ghost use Rattle.book.specs.Scale.{lift_motion, tip_motion};
ghost use Rattle.book.specs.Calls.{by_lift, by_tip};

use super::transfers::motion_of;
use super::{Posting, balances};
use book::{Head, Lift, Motion, SCALE, Tip, Transfer};
use refusal::Refusal;
use taking::Move;

// A lift is a transfer onto the scale.
pub fn lift_motion(x: Lift) -> Motion
    requires { x.age ≤ x.minute }
    ensures { result ≡ lift_motion the_scale x }
{
    motion_of(Transfer {
        source: x.source,
        destination: SCALE,
        minute: x.minute,
        weight: x.weight,
        age: x.age,
    })
}

// A tip moves all the weight on the scale, and does not count.
pub fn tip_motion(head: &Head, y: Tip) -> Motion
    ensures { result ≡ tip_motion the_scale head.now.scale y }
{
    Motion {
        moves: Move {
            source: SCALE,
            destination: y.destination,
            birth: y.minute,
            weight: head.scale,
        },
        minute: y.minute,
        counts: 0,
    }
}

impl Posting for Lift {
    ghost asked = { λ x. by_lift x };

    #[tactic(auto, unfolding(book::specs::Scale::lift_checks, book::specs::Head::balance_at))]
    fn check(self, head: &Head) -> Result<(), Refusal> {
        if 0 < head.scale {
            return Err(Refusal::ScaleLoaded);
        }
        if head.vessels <= self.source {
            return Err(Refusal::NoVessel);
        }
        if self.weight == 0 {
            return Err(Refusal::NoWeight);
        }
        if self.minute < head.last {
            return Err(Refusal::ClockBack);
        }
        if self.minute < self.age as u32 {
            return Err(Refusal::BeforeTime);
        }
        if head.accepted == refusal::TOP {
            return Err(Refusal::TallyFull);
        }
        Ok(())
    }

    #[tactic(auto, using(std::proofs::lemmas::Bool::Decides::nat_tests), unfolding(book::specs::Scale::lift_checks, book::specs::Head::balance_at))]
    fn motion(self, _head: &Head) -> Motion {
        lift_motion(self)
    }
}

impl Posting for Tip {
    ghost asked = { λ y. by_tip y };

    #[tactic(auto, unfolding(book::specs::Scale::tip_checks, book::specs::Head::balance_at))]
    fn check(self, head: &Head) -> Result<(), Refusal> {
        if head.scale == 0 {
            return Err(Refusal::ScaleBare);
        }
        if head.vessels <= self.destination {
            return Err(Refusal::NoVessel);
        }
        if self.minute < head.last {
            return Err(Refusal::ClockBack);
        }
        let balance = balances::balance_at(head, self.destination);
        if (refusal::TOP as u64) < (balance as u64) + (head.scale as u64) {
            return Err(Refusal::Overfull);
        }
        Ok(())
    }

    #[tactic(auto, using(std::proofs::lemmas::Bool::Decides::nat_tests), unfolding(book::specs::Scale::tip_checks, book::specs::Head::balance_at))]
    fn motion(self, head: &Head) -> Motion {
        tip_motion(head, self)
    }
}
