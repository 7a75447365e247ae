// The library for C and Rust: every public call under a name of its own. include/lumchaki.h declares them.
// A slice passes as a pointer and a length. Each contract is the one of the call behind it.
#![tactic(auto)]

ghost use Rattle.std.specs.Prelude.{◌≡◌, ◌≤◌, length};
ghost use Rattle.book.specs.Head.{opening};
ghost use Rattle.book.specs.declared.Report.TheVariants.{Held, Spread, Whole};
ghost use Rattle.book.specs.Transfer.{most_age, transfer_of};
ghost use Rattle.book.specs.Calls.{post};
ghost use Rattle.motions.specs.Posting.{Posts};
ghost use Rattle.reports.specs.Asking.{Asks};
ghost use Rattle.sheet.specs.Answers.{reading, movement_asked, name_number, name_asked};
ghost use Rattle.writing.specs.Writing.{write_number, written};
ghost use Rattle.run.specs.Run.{Gives, running};

use book::{Head, Reply, Transfer, Transferred};
use run::Ran;
use sheet::answer::{Movement, Reading};

mod rules; // rules.rt: the rule of a vessel
mod scale; // scale.rt: lift and tip
mod spelled; // spelled.rt: a contract spelled out again

// Rule and count of vessels are two numbers in C, and stay two down to `ledger::opening`.
#[unsafe(no_mangle)]
pub extern "C" fn lumchaki_open(rule: u32, vessels: u32) -> Reply
    ensures { result ≡ opening rule vessels }
{
    ledger::opening::open(rule, vessels)
}

#[unsafe(no_mangle)]
pub extern "C" fn lumchaki_transfer(
    head: Head,
    table: &mut [u32],
    source: u32,
    destination: u32,
    minute: u32,
    weight: u32,
    age: u16,
) -> Transferred
    ensures { Posts head (post (transfer_of source destination minute weight age)) table.old table.new result }
{
    let x = Transfer {
        source,
        destination,
        minute,
        weight,
        age,
    };
    posting::transfer(head, table, x)
}

#[unsafe(no_mangle)]
pub extern "C" fn lumchaki_held(head: Head, table: &[u32], vessel: u32, report: &mut [u32]) -> Reply
    ensures { Asks head (Held vessel) table.now report.old report.new result }
{
    reports::held(head, table, vessel, report)
}

#[unsafe(no_mangle)]
pub extern "C" fn lumchaki_spread(
    head: Head,
    table: &[u32],
    origin: u32,
    from: u32,
    to: u32,
    report: &mut [u32],
) -> Reply
    ensures { Asks head (Spread origin from to) table.now report.old report.new result }
{
    reports::spread(head, table, origin, from, to, report)
}

#[unsafe(no_mangle)]
pub extern "C" fn lumchaki_whole(head: Head, table: &[u32], report: &mut [u32]) -> Reply
    ensures { Asks head Whole table.now report.old report.new result }
{
    reports::whole(head, table, report)
}

#[unsafe(no_mangle)]
pub extern "C" fn lumchaki_whole_by_rows(head: Head, table: &[u32], report: &mut [u32]) -> Reply
    ensures { Asks head Whole table.now report.old report.new result }
{
    reports::whole_by_rows(head, table, report)
}

#[unsafe(no_mangle)]
pub extern "C" fn lumchaki_read(sheet: &[u8]) -> Reading
    ensures { result ≡ reading sheet.now }
{
    sheet::read(sheet)
}

#[unsafe(no_mangle)]
pub extern "C" fn lumchaki_movement(sheet: &[u8], index: u32) -> Movement
    ensures answer { result ≡ movement_asked sheet.now index }
    ensures age { result.age ≤ most_age }
{
    sheet::movement(sheet, index)
}

// An exported function returns no reference: the name is the part of this length that starts at byte 24 + 8 × vessel of
// the sheet.
#[unsafe(no_mangle)]
pub extern "C" fn lumchaki_name(sheet: &[u8], vessel: u32) -> usize
    ensures { result ≡ length (name_asked sheet.now vessel) }
{
    let name = sheet::name(sheet, vessel);
    name.len()
}

// C has no `Result`: it gets the number.
#[unsafe(no_mangle)]
pub extern "C" fn lumchaki_name_number(sheet: &[u8], vessel: u32) -> u32
    ensures { result ≡ name_number sheet.now vessel }
{
    sheet::name_number(sheet, vessel)
}

// Likewise.
#[unsafe(no_mangle)]
pub extern "C" fn lumchaki_write(
    rule: u32,
    vessels: u32,
    names: &[u8],
    numbers: &[u32],
    out: &mut [u8],
) -> u32
    ensures number { result ≡ write_number rule vessels names.now numbers.now (length out.old) }
    ensures bytes { out.new ≡ written rule vessels names.now numbers.now out.old }
{
    writing::write(rule, vessels, names, numbers, out)
}

#[unsafe(no_mangle)]
pub extern "C" fn lumchaki_run(sheet: &[u8], table: &mut [u32]) -> Ran
    ensures { Gives (running sheet.now table.old) table.new result }
{
    run::run(sheet, table)
}
