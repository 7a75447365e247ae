// A transfer as a posting. Number 11 is found where the pieces are moved.
ghost use Rattle.std.specs.Prelude.{◌≡◌, ◌≤◌};
ghost use Rattle.book.specs.Transfer.{motion_of};
ghost use Rattle.book.specs.Calls.{by_transfer};

use super::{Posting, balances};
use book::{Head, Motion, Transfer};
use refusal::Refusal;
use taking::Move;

// The motion that a transfer is: what is born was milled its age before its minute.
pub fn motion_of(x: Transfer) -> Motion
    requires { x.age ≤ x.minute }
    ensures { result ≡ motion_of x }
{
    Motion {
        moves: Move {
            source: x.source,
            destination: x.destination,
            birth: x.minute - x.age as u32,
            weight: x.weight,
        },
        minute: x.minute,
        counts: 1,
    }
}

impl Posting for Transfer {
    ghost asked = { λ x. by_transfer x };

    #[tactic(auto, unfolding(book::specs::Transfer::transfer_checks))]
    fn check(self, head: &Head) -> Result<(), Refusal> {
        if head.vessels <= self.source || head.vessels <= self.destination {
            return Err(Refusal::NoVessel);
        }
        if self.source == self.destination {
            return Err(Refusal::SameVessel);
        }
        if self.weight == 0 {
            return Err(Refusal::NoWeight);
        }
        if self.minute < head.last {
            return Err(Refusal::ClockBack);
        }
        if self.minute < self.age as u32 {
            return Err(Refusal::BeforeTime);
        }
        let balance = balances::balance_at(head, self.destination);
        if (refusal::TOP as u64) < (balance as u64) + (self.weight as u64) {
            return Err(Refusal::Overfull);
        }
        if head.accepted == refusal::TOP {
            return Err(Refusal::TallyFull);
        }
        Ok(())
    }

    #[tactic(auto, using(std::proofs::lemmas::Bool::Decides::nat_tests), unfolding(book::specs::Transfer::transfer_checks))]
    fn motion(self, _head: &Head) -> Motion {
        motion_of(self)
    }
}
