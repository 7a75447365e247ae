// The listing of a run as text: put into bytes that the caller lends, or, of a sheet that is read, written to a stream.
#![tactic(auto)]

ghost use Rattle.std.specs.Prelude.{◌*◌, ◌≤◌, length, replicate, OnOk, IfSome};
ghost use Rattle.std.specs.Io.KnownBytes.{Appends};
ghost use Rattle.table.specs.Table.{most_places};
ghost use Rattle.text.specs.Writing.{Room, Writes};
ghost use Rattle.listing.specs.Listing.{first_line, piece_line, piece_lines, last_line, listing_of, Listed, ListsSheet, first_size, piece_size, last_size, room_for, listing_room, sheet_listing};

use book::Head;
use fields::layout::{ENTRY_SIZE, HEADER_SIZE, MOST_MOVEMENTS, NAME_SIZE};
use input::read_full;
use ledger::opening::VESSELS;
use run::Ran;
use std::io;
use std::io::{Read, Write};
use table::Piece;
use table::reading::Pieces;
use text::Writer;

// The most bytes of the first line, of a piece's and of the last.
const FIRST: usize = 89;

const PIECE: usize = 44;

const LAST: usize = 33;

// Bytes that are room for every listing of a table.
pub const ROOM: usize = FIRST + LAST + PIECE * table::PLACES;

// The longest sheet.
const LONGEST: usize = HEADER_SIZE + NAME_SIZE * (VESSELS as usize) + ENTRY_SIZE * MOST_MOVEMENTS;

// One byte more, so that an overlong input is still told from a good one.
const SHEET: usize = LONGEST + 1;

// The numbers of all places.
const TABLE: usize = 4 * table::PLACES;

// The first line.
fn put_first(out: &mut Writer, head: Head, even: u32)
    requires { Room out.old first_size }
    ensures { Writes out.old (first_line head even) first_size out.new }
{
    out.put_word(b"vessels ", head.vessels);
    out.put_word(b" rule ", head.rule);
    out.put_word(b" accepted ", head.accepted);
    out.put_word(b" pieces ", head.pieces);
    out.put_word(b" even ", even);
    out.put_text(b"\n");
}

// The line of a piece.
fn put_piece(out: &mut Writer, p: Piece)
    requires { Room out.old piece_size }
    ensures { Writes out.old (piece_line p) piece_size out.new }
{
    out.put_number(p.holder);
    out.put_word(b" ", p.origin);
    out.put_word(b" ", p.birth);
    out.put_word(b" ", p.weight);
    out.put_text(b"\n");
}

// The lines of the pieces.
#[tactic(auto, using(crate::proofs::LineLaws::line_fits, crate::proofs::LineLaws::lines_end))]
fn put_pieces(out: &mut Writer, pieces: &Pieces)
    requires { Room out.old (piece_size * length pieces.now) }
    ensures { Writes out.old (piece_lines pieces.now) (piece_size * length pieces.now) out.new }
{
    for p in pieces {
        put_piece(out, p);
    }
}

// The last line, where the run was stopped.
fn put_last(out: &mut Writer, index: u32, number: u32)
    requires { Room out.old last_size }
    ensures { Writes out.old (last_line index number) last_size out.new }
{
    if number != 0 {
        out.put_word(b"stopped ", index);
        out.put_word(b" at ", number);
        out.put_text(b"\n");
    }
}

// The lines of a run, or the only one where it was refused: then C's `Ran` has a head of zeros.
#[tactic(auto, using(crate::proofs::LineLaws::pieces_count))]
fn put_run(out: &mut Writer, ran: Ran, table: &[u32])
    requires { (4 * ran.head.pieces ≤ length table.now) × Room out.old (room_for ran.head.pieces) }
    ensures { Writes out.old (listing_of ran table.now) (room_for ran.head.pieces) out.new }
{
    if ran.head.vessels == 0 {
        out.put_word(b"refused ", ran.number);
        out.put_text(b"\n");
    } else {
        put_first(out, ran.head, ran.even);
        put_pieces(out, &Pieces::of(table, ran.head.pieces as usize));
        put_last(out, ran.index, ran.number);
    }
}

// Lists a run that left its pieces in the table, and yields how many bytes that took. Bytes behind them remain.
pub fn put_listing(ran: Ran, table: &[u32], out: &mut [u8]) -> usize
    requires { (4 * ran.head.pieces ≤ length table.now) × (room_for ran.head.pieces ≤ length out.old) }
    ensures { Listed out.old (listing_of ran table.now) result out.new }
{
    let mut lines = Writer::new(out);
    put_run(&mut lines, ran, table);
    lines.written()
}

// Runs a sheet on the table and lists the run.
#[tactic(auto, using(crate::proofs::RunListing::list_ready, crate::proofs::RunListing::list_done))]
pub fn list_sheet(sheet: &[u8], table: &mut [u32], out: &mut [u8]) -> usize
    requires { listing_room ≤ length out.old }
    ensures { ListsSheet sheet.now table.old out.old result table.new out.new }
{
    let ran = run::run(sheet, table);
    put_listing(ran, table, out)
}

// Reads a sheet from the input, runs it on a table of 4,096 places, and writes its listing to the output. Of an input
// longer than any sheet one byte more than the longest is read. Answers the error of a read or a write that fails.
pub fn list<R: Read, W: Write>(input: &mut R, output: &mut W) -> io::Result<()>
    ensures { OnOk result (IfSome (R.remaining input.old) (λ bytes. Appends (W.contents output.old)
        (W.contents output.new) (sheet_listing bytes (replicate (4 * most_places) 0)))) }
{
    let mut sheet = [0u8; SHEET];
    let mut table = [0u32; TABLE];
    let mut text = [0u8; ROOM];
    let got = read_full(input, &mut sheet)?;
    let put = list_sheet(&sheet[..got], &mut table, &mut text);
    output.write_all(&text[..put])
}
