// A run of a sheet: its movements made one after the other on a fresh book.
#![tactic(auto)]

ghost use Rattle.std.specs.Prelude.{◌≡◌, ◌<◌, ◌≤◌, ◌+◌};
ghost use Rattle.refusal.specs.Numbers.{if_zero};
ghost use Rattle.refusal.specs.Refusals.{number_of};
ghost use Rattle.book.specs.Head.{empty_head};
ghost use Rattle.lane_book.specs.LaneBook.{written, Stands};
ghost use Rattle.sheet.specs.Sheet.{rule_of, vessels_of, movements_of};
ghost use Rattle.run.specs.Run.{transfer_at, transfers_of, not_run, ran_to, Gives, run_from, running, Checked, CanRun};

use book::{Head, Transfer};
use lane_book::LaneBook;
use refusal::Refusal;
use sheet::Sheet;
use taking::Applied;

// What a run yields: the number of the movement that stopped it or 0, that movement's index or the count of all, the
// even count, and the head after the last accepted movement. C gets it by value, so that a number tells a refusal.
#[repr(C)]
#[derive(Clone, Copy, Debug, PartialEq, Eq)]
pub struct Ran {
    pub number: u32,
    pub index: u32,
    pub even: u32,
    pub head: Head,
}

// Where a run stopped: what it yields but for the head.
#[derive(Clone, Copy)]
struct Stop {
    number: u32,
    index: u32,
    even: u32,
}

// A run that did not begin.
fn refused(why: Refusal) -> Ran
    ensures { result ≡ not_run (number_of why) }
{
    Ran {
        number: u32::from(why),
        index: 0,
        even: 0,
        head: ledger::opening::empty_head(0, 0),
    }
}

// 1 for a transfer without split or birth.
fn count_even(made: Applied) -> u32
    ensures { (result ≡ if_zero (made.split + made.born) 1 0) × (result ≤ 1) }
{
    u32::from(made.split == 0 && made.born == 0)
}

// The transfer that movement i is.
fn transfer_at(sheet: &Sheet, i: u32) -> Transfer
    requires { i < movements_of sheet.now }
    ensures { result ≡ transfer_at sheet.now i }
{
    let e = sheet.movement(i);
    Transfer {
        source: e.source,
        destination: e.destination,
        minute: e.minute,
        weight: e.weight,
        age: e.age as u16,
    }
}

// All movements are made in turn, until one is refused.
fn make_all(sheet: &Sheet, table: &mut [u32], book: &mut LaneBook) -> Stop
    requires { Stands book.old table.old }
    ensures given { Gives (run_from 0 0 book.old.head (written book.old table.old) (transfers_of sheet.now)) (written book.new table.new) (ran_to result book.new.head) }
    ensures stands { Stands book.new table.new }
{
    let movements = sheet.header().movements;
    let mut even = 0;
    for i in 0..movements {
        match book.post(table, transfer_at(sheet, i)) {
            Ok(made) => {
                even += count_even(made);
            }
            Err(why) => {
                return Stop {
                    number: u32::from(why),
                    index: i,
                    even,
                };
            }
        }
    }
    Stop {
        number: 0,
        index: movements,
        even,
    }
}

// All movements are made on a fresh book, and the table is written.
fn run_known(sheet: &Sheet, table: &mut [u32]) -> Ran
    requires { CanRun sheet.now table.old }
    ensures { Gives (run_from 0 0 (empty_head (rule_of sheet.now) (vessels_of sheet.now)) table.old (transfers_of sheet.now)) table.new result }
{
    let header = sheet.header();
    let mut book = LaneBook::open(header.rule, header.vessels);
    let stop = make_all(sheet, table, &mut book);
    Ran {
        number: stop.number,
        index: stop.index,
        even: stop.even,
        head: book.close(table),
    }
}

// The sheet, if it reads well and the table has a place.
#[tactic(auto, using(sheet::proofs::ReadLaws::not_read, crate::proofs::RunLaws::unread, crate::proofs::RunLaws::no_place, crate::proofs::RunLaws::can_begin))]
fn check<'a>(sheet: &'a [u8], table: &[u32]) -> Result<Sheet<'a>, Refusal>
    ensures { Checked sheet.now table.now result }
{
    let known = Sheet::read(sheet)?;
    if table.len() < 4 {
        return Err(Refusal::TableShort);
    }
    Ok(known)
}

// Reads a sheet and makes its movements on a fresh book in the table.
pub fn run(sheet: &[u8], table: &mut [u32]) -> Ran
    ensures { Gives (running sheet.now table.old) table.new result }
{
    match check(sheet, table) {
        Ok(known) => run_known(&known, table),
        Err(why) => refused(why),
    }
}
