// Worked vectors: each line of the file stdin is one, and what is shown of it is held to the file stdout. A line is a
// heading (`#`), a list of calls (`calls`, the rule, the calls), or a sheet (the rule, the movements), which is
// written, run and listed. The first are document 01's, K1 to K10; the others tell apart what those can't.
#![tactic(auto)]

ghost use Rattle.std.specs.Prelude.{◌≡◌, ◌++◌, get_or, drop, replicate, OnOk};
ghost use Rattle.std.specs.Io.KnownBytes.{Appends};
ghost use Rattle.vectors.specs.Vectors.{answers_room, report_room, unwritten, heading, heading_line, VectorWritten, vector_listing, carried_listing, calls_listing, numbers_line, shown};

use book::Report;
use encoding::CALL_SIZE;
use fields::layout::{ENTRY_SIZE, GIVEN_SIZE, HEADER_SIZE, NAME_SIZE};
use input::read_full;
use journal::Call;
use std::io;
use std::io::Write;

mod kept; // kept.rt: calls carried out, and all that is kept

const INPUT: usize = 8192; // bytes of all vectors at most

const VESSELS: usize = 3; // A, B, C

const MOVEMENTS: usize = 16; // of a vector at most

const SHEET: usize = HEADER_SIZE + NAME_SIZE * VESSELS + ENTRY_SIZE * MOVEMENTS;

const PLACES: usize = 6;

const TABLE: usize = 4 * PLACES; // four numbers for a place

const CALLS: usize = 13; // of a list at most

const UNWRITTEN: u32 = 99; // shows where nothing is written

// The rule, which stands first, and the numbers behind it.
fn split_rule(numbers: &[u32]) -> (u32, &[u32])
    ensures { (result.0 ≡ get_or numbers.now 0 0) × (result.1.now ≡ drop 1 numbers.now) }
{
    match numbers {
        [rule, behind @ ..] => (*rule, behind),
        [] => (0, numbers),
    }
}

// Writes a sheet under a rule, of movements (s, d, t, q, age) between three vessels, and yields its length.
fn write_vector(text: &[u8], sheet: &mut [u8]) -> usize
    ensures { VectorWritten text.now sheet.old result sheet.new }
{
    let mut numbers = [0u32; 1 + GIVEN_SIZE * MOVEMENTS];
    let count = text::parsing::read(text, &mut numbers);
    let (rule, movements) = split_rule(&numbers[..count]);
    let names = b"A\0\0\0\0\0\0\0B\0\0\0\0\0\0\0C\0\0\0\0\0\0\0";
    writing::write(rule, VESSELS as u32, names, movements, sheet);
    HEADER_SIZE + NAME_SIZE * VESSELS + ENTRY_SIZE * (movements.len() / GIVEN_SIZE)
}

// Writes the listing of movements between three vessels.
fn show<W: Write>(text: &[u8], out: &mut W) -> io::Result<()>
    ensures { OnOk result (Appends (W.contents out.old) (W.contents out.new) (vector_listing text.now)) }
{
    let mut sheet = [0u8; SHEET];
    let mut table = [0u32; TABLE];
    let mut listed = [0u8; listing::ROOM];
    let size = write_vector(text, &mut sheet);
    let n = listing::list_sheet(&sheet[..size], &mut table, &mut listed);
    out.write_all(&listed[..n])
}

// Writes numbers on a line, each with a space behind it.
#[tactic(auto, using(crate::proofs::Output::appends_none, crate::proofs::Output::number_more), unfolding(crate::specs::Vectors::numbers_text))]
fn print_line<W: Write>(numbers: &[u32], out: &mut W) -> io::Result<()>
    ensures { OnOk result (Appends (W.contents out.old) (W.contents out.new) (numbers_line numbers.now)) }
{
    for n in numbers {
        write!(out, "{n} ")?;
    }
    out.write_all(b"\n")
}

// Carries out calls in numbers on a fresh book of three vessels: the number of each goes to the answers, and reports to
// the room.
fn carry_out(rule: u32, numbers: &[u32], answers: &mut [u32], room: &mut [u32])
    requires { (answers.old ≡ replicate answers_room unwritten) × (room.old ≡ replicate report_room unwritten) }
    ensures { numbers_line answers.new ++ numbers_line room.new ≡ carried_listing rule numbers.now }
{
    let mut calls = [Call::Report(Report::Whole); CALLS];
    let mut table = [0u32; TABLE];
    match encoding::read_calls(numbers, &mut calls) {
        Ok(n) => {
            kept::carry_out(rule, &mut table, &calls[..n], answers, room);
        }
        Err(_) => {}
    }
}

// Writes the number of each call, and the room after them.
fn show_calls<W: Write>(text: &[u8], out: &mut W) -> io::Result<()>
    ensures { OnOk result (Appends (W.contents out.old) (W.contents out.new) (calls_listing text.now)) }
{
    let mut numbers = [0u32; 1 + CALL_SIZE * CALLS];
    let mut answers = [UNWRITTEN; CALLS];
    let mut room = [UNWRITTEN; VESSELS * VESSELS];
    let count = text::parsing::read(text, &mut numbers);
    let (rule, calls) = split_rule(&numbers[..count]);
    carry_out(rule, calls, &mut answers, &mut room);
    print_line(&answers, out)?;
    print_line(&room, out)
}

// Writes a line as it is.
fn print_heading<W: Write>(line: &[u8], out: &mut W) -> io::Result<()>
    ensures { OnOk result (Appends (W.contents out.old) (W.contents out.new) (heading_line line.now)) }
{
    out.write_all(line)?;
    out.write_all(b"\n")
}

// The first byte of a line, or that of a heading where it is empty.
fn first_byte(line: &[u8]) -> u8
    ensures { result ≡ get_or line.now 0 heading }
{
    line.first().copied().unwrap_or(b'#')
}

// Writes what is shown of a line: its first byte tells what it is, and an empty line is a heading.
#[tactic(auto, unfolding(crate::specs::Vectors::shown))]
pub fn show_line<W: Write>(line: &[u8], out: &mut W) -> io::Result<()>
    ensures { OnOk result (Appends (W.contents out.old) (W.contents out.new) (shown line.now)) }
{
    match first_byte(line) {
        b'#' => print_heading(line, out),
        b'c' => show_calls(line, out),
        _ => show(line, out),
    }
}

fn main(rt: HostRuntime) -> io::Result<()> {
    let mut text = [0u8; INPUT];
    let got = read_full(&mut rt.stdin(), &mut text)?;
    let mut out = rt.stdout();
    for line in text[..got].split_inclusive(|byte| *byte == b'\n') {
        show_line(line.strip_suffix(b"\n").unwrap_or(line), &mut out)?;
    }
    Ok(())
}
