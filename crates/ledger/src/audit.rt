// Whether a book adds up.
ghost use Rattle.std.specs.Prelude.{◌≡◌, ◌≤◌, length, drop};
ghost use Rattle.book.specs.Head.{most_vessels, holdings, all_of, lot_fits, all_zero, known_rule, rules_fit, balanced, adds_up, Sized};
ghost use Rattle.std.specs.List.{list_all};
ghost use Rattle.refusal.specs.Numbers.{first};
ghost use Rattle.refusal.specs.Refusals.{outcome_number};
ghost use Rattle.book.specs.Memory.{book_checks};
ghost use Rattle.ledger.specs.Audit.{covers, drained};

use super::opening;
use book::{HOLDERS, Head, MOST_VESSELS, SCALE};
use refusal::Refusal;
use table::Piece;
use table::reading::Pieces;
use taking::STIRRED;

// What the pieces of a book have to fit: its count of vessels, and its last minute.
#[derive(Clone, Copy)]
struct Limits {
    vessels: u32,
    last: u32,
}

impl Limits {
    // Whether the origin, the birth minute and the weight of the piece fit.
    fn lot_fits(self, p: Piece) -> bool
        ensures { result ≡ lot_fits self.vessels self.last p }
    {
        p.origin < self.vessels && p.birth <= self.last && 1 <= p.weight
    }

    // Whether the piece fits, and what is left of its holder's balance covers it. Which holders a book has is not
    // asked: no other has anything left.
    fn covers(self, p: Piece, rest: &[u32; HOLDERS]) -> bool
        ensures { result ≡ covers self.vessels self.last rest.now p }
    {
        self.lot_fits(p) && p.holder <= SCALE && p.weight <= rest[p.holder as usize]
    }

    // Whether the pieces draw the balances of all holders down to nothing.
    fn drained(self, pieces: &Pieces, balances: [u32; HOLDERS]) -> bool
        ensures { result ≡ drained self.vessels self.last balances pieces.now }
    {
        let mut rest = balances;
        for p in pieces {
            if !self.covers(p, &rest) {
                return false;
            }
            rest[p.holder as usize] -= p.weight;
        }
        all_zero(&rest)
    }
}

// Whether nothing is left of any balance: a function of its own, since its one law is about it alone.
fn all_zero(rest: &[u32]) -> bool
    ensures { result ≡ all_zero rest.now }
{
    rest.iter().all(|x| *x == 0)
}

// Whether no vessel from V on has any weight.
fn bare_beyond(head: Head) -> bool
    requires { head.vessels ≤ most_vessels }
    ensures { result ≡ all_zero (drop head.vessels head.balances) }
{
    all_zero(&head.balances[head.vessels as usize..])
}

// Whether the pieces draw the balances of the head, the scale's among them, down to nothing.
#[tactic(auto, using(crate::proofs::Drained::drawn_all))]
fn draw_all(head: Head, pieces: &Pieces) -> bool
    ensures { (result ≡ drained head.vessels head.last (holdings head) pieces.now) × (length head.balances ≡ most_vessels) }
{
    let mut balances = [0u32; HOLDERS];
    balances[..MOST_VESSELS].copy_from_slice(&head.balances);
    balances[MOST_VESSELS] = head.scale;
    let limits = Limits {
        vessels: head.vessels,
        last: head.last,
    };
    limits.drained(pieces, balances)
}

// Whether the pieces fit, and the balances of the head, the scale's among them, are their sums.
fn is_balanced(head: Head, pieces: &Pieces) -> bool
    requires { head.vessels ≤ most_vessels }
    ensures { result ≡ all_of (balanced head pieces.now) }
{
    bare_beyond(head) && draw_all(head, pieces)
}

// Whether all of these rules are known.
fn all_known(rules: &[u32]) -> bool
    ensures { result ≡ list_all known_rule rules.now }
{
    rules.iter().all(|rule| *rule <= STIRRED)
}

// Whether each vessel's rule is known, and those from V on are 0.
#[tactic(auto, unfolding(book::specs::Head::rules_fit))]
fn rules_fit(head: Head) -> bool
    requires { head.vessels ≤ most_vessels }
    ensures { result ≡ rules_fit head.vessels head.rules }
{
    let n = head.vessels as usize;
    all_known(&head.rules[..n]) && all_zero(&head.rules[n..])
}

// Whether the book adds up: one pass over the pieces.
#[tactic(auto, unfolding(book::specs::Head::adds_up, table::specs::Table::places_in))]
pub fn adds_up(head: Head, table: &[u32]) -> bool
    ensures { result ≡ adds_up head table.now }
{
    let n = head.pieces as usize;
    if opening::check_opening(head.rule, head.vessels).is_err() || table::places(table) < n {
        return false;
    }
    rules_fit(head) && is_balanced(head, &Pieces::of(table, n))
}

// Checks 1 and 4, which every call makes first.
#[tactic(auto, unfolding(book::specs::Memory::book_checks, book::specs::Head::balance_at))]
pub fn check_book(head: Head, table: &[u32]) -> Result<(), Refusal>
    ensures { (outcome_number result ≡ first (book_checks head table.now)) × Sized head }
{
    if table.len() < 4 {
        return Err(Refusal::TableShort);
    }
    if adds_up(head, table) {
        return Ok(());
    }
    Err(Refusal::BookOff)
}
