// A stirred source: each of its pieces gives a share. What each gives is found first, and the table is written only if
// there is room for the splits.
ghost use Rattle.std.specs.Prelude.{◌≡◌, ◌≤◌, length};
ghost use Rattle.table.specs.Table.{most_places, pieces_of};
ghost use Rattle.taking.specs.Stirring.{stirred};
ghost use Rattle.taking.specs.Applied.{Moves};
ghost use Rattle.moving.specs.Ready.{Ready};
ghost use Rattle.moving.specs.Stirring.{Stirrable, SharesOut, Partible, Parts};

use super::{LIFTED, LIFTED_PLACES, Workspace};
use table::reading::Pieces;
use table::{closing, piece_at, put_piece};
use taking::{Applied, Move};

// How many pieces stay in the table, and how many are lifted. A piece that is split is counted in both.
#[derive(Clone, Copy)]
pub struct Parted {
    pub stay: usize,
    pub go: usize,
}

// What each piece gives is put down, 0 for a piece of another holder: what falls to the source's pieces up to it, less
// what fell to those before it. So there is one division for each. The answer is how many pieces are split.
fn share_out(pieces: &Pieces, m: Move, balance: u32, noted: &mut [u64]) -> usize
    requires { (length pieces.now ≤ most_places) × (length noted.old ≡ most_places) × Stirrable m balance pieces.now }
    ensures { SharesOut m pieces.now noted.new result }
{
    let mut splits = 0;
    let mut sum = 0;
    let mut given = 0;
    for (i, p) in pieces.into_iter().enumerate() {
        if p.holder == m.source {
            sum += p.weight;
            let due = sharing::up_to(m.weight, balance, sum);
            let gift = due - given;
            given = due;
            noted[i] = gift as u64;
            if gift != 0 && gift != p.weight {
                splits += 1;
            }
        } else {
            noted[i] = 0;
        }
    }
    splits
}

// Each piece gives what is put down for it: what is left of the pieces closes up, and what they give is lifted, with
// its new holder.
fn part(
    table: &mut [u32],
    n: usize,
    destination: u32,
    gifts: &[u64],
    lifted: &mut [u32; LIFTED],
) -> Parted
    requires { Partible n gifts.now table.old }
    ensures { Parts n destination gifts.now table.old table.new lifted.new result }
{
    let mut stay = 0;
    let mut go = 0;
    for i in 0..n {
        let p = piece_at(table, n, i);
        let gift = gifts[i] as u32;
        if gift == 0 {
            put_piece(table, n, stay, p);
            stay += 1;
            continue;
        }
        let given = p.of_weight(gift).hand_to(destination);
        put_piece(lifted, LIFTED_PLACES, go, given);
        go += 1;
        if gift != p.weight {
            put_piece(table, n, stay, p.of_weight(p.weight - gift));
            stay += 1;
        }
    }
    Parted { stay, go }
}

// Moves the weight, which is less than the source's balance, as a stirred source gives it, or answers `None`.
pub fn move_stirred(
    table: &mut [u32],
    n: usize,
    places: usize,
    balance: u32,
    m: Move,
    work: &mut Workspace,
) -> Option<Applied>
    requires { Ready n places m table.old × Stirrable m balance (pieces_of n table.old) }
    ensures { Moves places m (stirred m (pieces_of n table.old)) table.old table.new result }
{
    let pieces = Pieces::of(table, n);
    let splits = share_out(&pieces, m, balance, &mut work.keys);
    if places - n < splits {
        return None;
    }
    let parted = part(table, n, m.destination, &work.keys[..n], &mut work.lifted);
    closing::append(table, parted.stay, &work.lifted, parted.go);
    Some(Applied {
        whole: (parted.go - splits) as u32,
        split: splits as u32,
        born: 0,
        count: n + splits,
    })
}
