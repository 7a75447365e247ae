// The pieces of a book as one value, where they are only read.
ghost use Rattle.std.specs.Prelude.{◌≡◌, ◌≤◌, ◌*◌, length};
ghost use Rattle.std.specs.List.{slice_get};
ghost use Rattle.std.specs.Iterator.{YieldsFirst, item_count};
ghost use Rattle.table.specs.Table.{pieces_of};

use crate::Piece;
use std::marker::Model;

// The pieces of a book, read from the table that they lie in: four numbers for each. A type with a view and a lifetime cannot be `Copy`,
// so functions take it by reference. The numbers are flat, as C lends them, and cut by four where a piece is read.
#[derive(Drop)]
pub struct Pieces<'a> {
    numbers: &'a [u32],
}

impl<'a> Model for Pieces<'a> {
    ghost use Rattle.std.specs.Prelude.{List};
    ghost use Rattle.table.specs.declared.Piece.{Piece};
    ghost use Rattle.table.specs.Table.{all_pieces};

    ghost Value = { List Piece };

    ghost view = { λ pieces. all_pieces pieces.numbers.now };
}

impl<'a> Pieces<'a> {
    // The first n pieces of the table.
    #[tactic(auto, using(crate::proofs::AllPieces::first_pieces))]
    pub fn of(table: &'a [u32], n: usize) -> Self
        requires { 4 * n ≤ length table.now }
        ensures { result ≡ pieces_of n table.now }
    {
        Pieces {
            numbers: &table[..4 * n],
        }
    }

    // The piece at place i, if it is there.
    #[tactic(auto, using(crate::proofs::AllPieces::no_piece_there))]
    pub fn get(&self, i: usize) -> Option<Piece>
        ensures { result ≡ slice_get self.now i }
    {
        let n = self.numbers.len() / 4;
        if i < n {
            Some(crate::piece_at(self.numbers, n, i))
        } else {
            None
        }
    }
}

impl<'s, 'a> IntoIterator for &'s Pieces<'a> {
    type Item = Piece;

    type IntoIter = Iter<'a>;

    ghost into_iter_gives = { λ pieces left. left ≡ pieces.now };

    fn into_iter(self) -> Iter<'a> {
        Iter {
            numbers: self.numbers,
        }
    }
}

// The pieces still to be read, in order of receipt. A type of its own, as std's iterators are: it is used up, and `Pieces` are not.
#[derive(Drop)]
pub struct Iter<'a> {
    numbers: &'a [u32],
}

impl<'a> Model for Iter<'a> {
    ghost use Rattle.std.specs.Prelude.{List};
    ghost use Rattle.table.specs.declared.Piece.{Piece};
    ghost use Rattle.table.specs.Table.{all_pieces};

    ghost Value = { List Piece };

    ghost view = { λ left. all_pieces left.numbers.now };
}

impl<'a> Iterator for Iter<'a> {
    type Item = Piece;

    ghost next_gives = { YieldsFirst (λ left. left) };

    ghost remaining = { item_count (λ left. left) };

    #[inline]
    fn next(&mut self) -> Option<Piece> {
        let (first, rest) = self.numbers.split_first_chunk::<4>()?;
        let [holder, origin, birth, weight] = *first;
        self.numbers = rest;
        Some(Piece {
            holder,
            origin,
            birth,
            weight,
        })
    }
}
