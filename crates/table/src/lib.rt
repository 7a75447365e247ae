// The pieces of a book, in a lent table of 32-bit numbers: four for a piece, in order of receipt. How many they are
// stands beside the table, since a head holds it: the C interface lends both as they are. Where pieces are only read,
// both become one value (reading.rt).
#![tactic(auto)]

ghost use Rattle.std.specs.Prelude.{◌≡◌, ◌<◌, ◌≤◌, ◌*◌, length};
ghost use Rattle.table.specs.Pieces.{of_weight, hand_to};
ghost use Rattle.table.specs.Table.{piece_in, put_in, places_of};

pub mod closing; // closing.rt: pieces close up where others have gone
pub mod reading; // reading.rt: the pieces of a book as one value, where they are only read

// A table never counts more places than this: a transfer's scratch memory is of this size.
pub const PLACES: usize = 4096;

// Weight of one origin and birth minute, in one vessel.
#[derive(Clone, Copy, Debug, PartialEq, Eq, Default)]
pub struct Piece {
    pub holder: u32,
    pub origin: u32,
    pub birth: u32,
    pub weight: u32,
}

impl Piece {
    // The piece in another vessel.
    pub fn hand_to(self, holder: u32) -> Self
        ensures { result ≡ hand_to holder self }
    {
        Piece { holder, ..self }
    }

    // The piece with another weight.
    pub fn of_weight(self, weight: u32) -> Self
        ensures { result ≡ of_weight weight self }
    {
        Piece { weight, ..self }
    }
}

// How many pieces the table has room for.
#[tactic(auto, unfolding(crate::specs::Table::places_in))]
pub fn places(table: &[u32]) -> usize
    ensures { result ≡ places_of table.now }
{
    PLACES.min(table.len() / 4)
}

// The piece at place i of n.
#[tactic(auto, using(crate::proofs::Table::piece_law))]
pub fn piece_at(table: &[u32], n: usize, i: usize) -> Piece
    requires { (i < n) × (4 * n ≤ length table.now) }
    ensures { result ≡ piece_in n table.now i }
{
    let at = 4 * i;
    Piece {
        holder: table[at],
        origin: table[at + 1],
        birth: table[at + 2],
        weight: table[at + 3],
    }
}

// Piece p is put at place i of n.
#[tactic(auto, using(crate::proofs::Table::put_law))]
pub fn put_piece(table: &mut [u32], n: usize, i: usize, p: Piece)
    requires { (i < n) × (4 * n ≤ length table.old) }
    ensures { table.new ≡ put_in n i p table.old }
{
    let at = 4 * i;
    table[at] = p.holder;
    table[at + 1] = p.origin;
    table[at + 2] = p.birth;
    table[at + 3] = p.weight;
}

// The piece at a place, or the piece of zeros where there is none.
#[tactic(auto, using(crate::proofs::Table::no_piece_there))]
pub fn piece_or_default(table: &[u32], n: usize, i: usize) -> Piece
    requires { 4 * n ≤ length table.now }
    ensures { result ≡ piece_in n table.now i }
{
    if i < n {
        piece_at(table, n, i)
    } else {
        Piece::default()
    }
}

// Piece p is put at a place, if it is there.
#[tactic(auto, using(crate::proofs::Table::not_put))]
pub fn put_if_there(table: &mut [u32], n: usize, i: usize, p: Piece)
    requires { 4 * n ≤ length table.old }
    ensures { table.new ≡ put_in n i p table.old }
{
    if i < n {
        put_piece(table, n, i, p);
    }
}
