// An amount is shared out over weights by running sums, rounded down, so that nothing is lost: what falls to a weight is what falls to all weights up to it,
// less what fell to those before it.
#![tactic(auto)]

ghost use Rattle.std.specs.Prelude.{◌≡◌, ◌≤◌, ◌<◌};
ghost use Rattle.sharing.specs.Sharing.{up_to};

// So much of the amount falls to the first weights, whose sum this is, of a total. The product has up to 64 bits.
#[tactic(auto, using(crate::proofs::Shares::up_to_fits), unfolding(crate::specs::Sharing::up_to))]
pub fn up_to(amount: u32, total: u32, sum: u32) -> u32
    requires { (0 < total) × (sum ≤ total) }
    ensures { result ≡ up_to amount total sum }
{
    (amount as u64 * sum as u64 / total as u64) as u32
}
