// What a report writes, at the start of room that the caller lends: one pass over the pieces, which adds each that
// counts at its number; whole also row by row.
ghost use Rattle.std.specs.Prelude.{◌≡◌, ◌≤◌, ◌*◌, Bool, if◌then◌else◌, ℕ, length};
ghost use Rattle.table.specs.declared.Piece.{Piece};
ghost use Rattle.refusal.specs.Numbers.{first};
ghost use Rattle.book.specs.Reports.{held_row, spread_row, rows, report_row, asked_checks, onto};
ghost use Rattle.reports.specs.Scatter.{held_by, born, off_scale, origin_of, holder_of, cell_of, entered, scatter, Enterable, Fillable, Tallied, one_pass, Reportable};

use book::{Report, SCALE};
use table::Piece;
use table::reading::Pieces;

// What a report adds up: which pieces count, and at which number of the room each is entered.
trait Tally {
    ghost counted: { Self → Piece → Bool };

    ghost index_of: { Self → Piece → ℕ };

    fn index(&self, p: Piece) -> Option<usize>
        ensures { result ≡ (if counted self.now p then Some (index_of self.now p) else None) };
}

// The pieces that a vessel holds, each at its origin.
#[derive(Clone, Copy)]
struct HeldBy {
    vessel: u32,
}

impl Tally for HeldBy {
    ghost counted = { λ t. held_by t.vessel };

    ghost index_of = { λ t. origin_of };

    fn index(&self, p: Piece) -> Option<usize> {
        (p.holder == self.vessel).then_some(p.origin as usize)
    }
}

// The pieces in vessels that were born at an origin from a minute to a minute, each at its holder.
#[derive(Clone, Copy)]
struct BornAt {
    origin: u32,
    from: u32,
    to: u32,
}

impl Tally for BornAt {
    ghost counted = { λ t. born t.origin t.from t.to };

    ghost index_of = { λ t. holder_of };

    fn index(&self, p: Piece) -> Option<usize> {
        // A test of its own: most pieces are of another origin, and their births are not read.
        if p.origin != self.origin {
            return None;
        }
        if p.holder == SCALE {
            return None;
        }
        let counts = (self.from..=self.to).contains(&p.birth);
        counts.then_some(p.holder as usize)
    }
}

// All pieces in vessels, each at its origin in the row of its holder; a row has so many numbers.
#[derive(Clone, Copy)]
struct ByBoth {
    row: u32,
}

impl Tally for ByBoth {
    ghost counted = { λ t. off_scale };

    ghost index_of = { λ t. cell_of t.row };

    fn index(&self, p: Piece) -> Option<usize> {
        (p.holder != SCALE).then_some(p.holder as usize * self.row as usize + p.origin as usize)
    }
}

// The piece is entered, if it counts.
fn enter<T: Tally>(p: Piece, tally: &T, report: &mut [u32])
    requires { Enterable (T.counted tally.now) (T.index_of tally.now) report.old p }
    ensures { report.new ≡ entered (T.counted tally.now) (T.index_of tally.now) report.old p }
{
    if let Some(at) = tally.index(p) {
        report[at] += p.weight;
    }
}

// The pieces that count are entered.
#[tactic(auto, using(crate::proofs::Scattered::fillable_next), unfolding(crate::specs::Scatter::scatter))]
fn add<T: Tally>(pieces: &Pieces, tally: &T, report: &mut [u32])
    requires { Fillable (T.counted tally.now) (T.index_of tally.now) report.old pieces.now }
    ensures { report.new ≡ scatter (T.counted tally.now) (T.index_of tally.now) report.old pieces.now }
{
    for p in pieces {
        enter(p, tally, report);
    }
}

// A report: its numbers become 0, and the pieces that count are entered.
#[tactic(auto, using(crate::proofs::Scattered::all_cleared, crate::proofs::Scattered::fillable))]
fn fill_pass<T: Tally>(pieces: &Pieces, tally: &T, report: &mut [u32])
    requires { Tallied (T.counted tally.now) (T.index_of tally.now) (length report.old) pieces.now }
    ensures { report.new ≡ one_pass (length report.old) (T.counted tally.now) (T.index_of tally.now) report.old pieces.now }
{
    report.fill(0);
    add(pieces, tally, report);
}

// The held report of a vessel: a number for each vessel.
#[tactic(auto, using(crate::proofs::Filled::held_tallied, crate::proofs::Filled::held_filled))]
fn fill_held(pieces: &Pieces, vessel: u32, row: &mut [u32])
    requires { Reportable (length row.old) pieces.now }
    ensures { row.new ≡ held_row (length row.old) vessel pieces.now }
{
    fill_pass(pieces, &HeldBy { vessel }, row);
}

// The spread report of an origin's births in a span: a number for each vessel.
#[tactic(auto, using(crate::proofs::Filled::spread_tallied, crate::proofs::Filled::spread_filled))]
fn fill_spread(pieces: &Pieces, origin: u32, from: u32, to: u32, row: &mut [u32])
    requires { Reportable (length row.old) pieces.now }
    ensures { row.new ≡ spread_row (length row.old) origin from to pieces.now }
{
    fill_pass(pieces, &BornAt { origin, from, to }, row);
}

// The rows of all vessels, in one pass.
#[tactic(auto, using(crate::proofs::Filled::whole_tallied, crate::proofs::Filled::whole_filled))]
fn fill_whole(pieces: &Pieces, vessels: u32, report: &mut [u32])
    requires { (length report.old ≡ vessels * vessels) × Reportable vessels pieces.now }
    ensures { report.new ≡ rows vessels 0 vessels pieces.now }
{
    fill_pass(pieces, &ByBoth { row: vessels }, report);
}

// The same at the start of the room, row by row: each row, by its place in the room, is lent to the held report of its
// vessel.
#[tactic(auto, using(crate::proofs::Filled::rows_none))]
pub fn fill_rows(pieces: &Pieces, vessels: u32, report: &mut [u32])
    requires { (vessels * vessels ≤ length report.old) × Reportable vessels pieces.now }
    ensures { report.new ≡ onto (rows vessels 0 vessels pieces.now) report.old }
{
    let size = vessels as usize;
    for v in 0..vessels {
        let at = (v * vessels) as usize;
        fill_held(pieces, v, &mut report[at..at + size]);
    }
}

// What is asked, at the start of room that its checks found long enough. Pieces, count of vessels and room are
// parameters of their own here and above: the pieces are read, the room is written, and that they fit is known of a
// book that adds up, not of one of them.
#[tactic(auto, using(crate::proofs::Filled::room_laws))]
pub fn fill(pieces: &Pieces, vessels: u32, asked: Report, room: &mut [u32])
    requires { (first (asked_checks vessels (length room.old) asked) ≡ 0) × Reportable vessels pieces.now }
    ensures { room.new ≡ onto (report_row vessels pieces.now asked) room.old }
{
    let size = vessels as usize;
    match asked {
        Report::Held(vessel) => fill_held(pieces, vessel, &mut room[..size]),
        Report::Spread(origin, from, to) => {
            fill_spread(pieces, origin, from, to, &mut room[..size])
        }
        Report::Whole => fill_whole(pieces, vessels, &mut room[..size * size]),
    }
}
