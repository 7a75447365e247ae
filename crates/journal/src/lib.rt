// A list of calls carried out on a fresh book.
#![tactic(auto)]

ghost use Rattle.std.specs.Prelude.{◌≤◌, List, ℕ, length};
ghost use Rattle.book.specs.Calls.{enter};
ghost use Rattle.book.specs.Memory.{Audited};
ghost use Rattle.journal.specs.Carried.{called, Makes, MakesAll, CarriesOut};

use book::{Head, Lift, Reply, Report, Setting, Tip, Transfer};
use ledger::{audit, opening, rules};
use motions::Posting;
use posting::keeping::TableKeeping;
use refusal::Refusal;
use reports::known;

// A call of a list.
#[derive(Clone, Copy, Debug, PartialEq, Eq)]
pub enum Call {
    Transfer(Transfer),
    Lift(Lift),
    Tip(Tip),
    Setting(Setting),
    Report(Report),
}

// Something is posted to a book that adds up.
fn post<P: Posting>(
    head: &mut Head,
    table: &mut [u32],
    work: &mut TableKeeping,
    p: P,
) -> Result<(), Refusal>
    requires { Audited head.old table.old }
    ensures { (room : List ℕ) → Makes (enter (P.asked p)) head.old head.new table.old table.new room room result }
{
    motions::post_known(head, table, work, p)?;
    Ok(())
}

// A call is made on a book that adds up: the one place that looks at its kind.
fn make(
    head: &mut Head,
    table: &mut [u32],
    work: &mut TableKeeping,
    call: Call,
    room: &mut [u32],
) -> Result<(), Refusal>
    requires { Audited head.old table.old }
    ensures { Makes (called call room.old) head.old head.new table.old table.new room.old room.new result }
{
    match call {
        Call::Transfer(x) => post(head, table, work, x),
        Call::Lift(x) => post(head, table, work, x),
        Call::Tip(y) => post(head, table, work, y),
        Call::Setting(s) => rules::set_known(head, s),
        Call::Report(asked) => known::report_known(head, table, asked, room),
    }
}

// The calls in turn on a book that adds up, in memory that is made once; the number of each goes to `answers`.
fn make_known(
    fresh: Head,
    table: &mut [u32],
    calls: &[Call],
    answers: &mut [u32],
    room: &mut [u32],
) -> Head
    requires { Audited fresh table.old × (length calls.now ≤ length answers.old) }
    ensures { MakesAll calls.now fresh table.old answers.old room.old
        table.new answers.new room.new result }
{
    let mut head = fresh;
    let mut work = TableKeeping::new();
    for (i, call) in calls.iter().enumerate() {
        answers[i] = refusal::number(make(&mut head, table, &mut work, *call, room));
    }
    head
}

// The calls in turn on any book. Checks 1 and 4 are made once: a book that adds up still does after every call, and
// where it is off every call is refused.
fn make_all(
    fresh: Head,
    table: &mut [u32],
    calls: &[Call],
    answers: &mut [u32],
    room: &mut [u32],
) -> Head
    requires { length calls.now ≤ length answers.old }
    ensures { MakesAll calls.now fresh table.old answers.old room.old
        table.new answers.new room.new result }
{
    match audit::check_book(fresh, table) {
        Ok(()) => make_known(fresh, table, calls, answers, room),
        Err(why) => {
            answers[..calls.len()].fill(u32::from(why));
            fresh
        }
    }
}

// Opens a book and carries out the calls, as many as there is room for answers.
pub fn carry_out(
    rule: u32,
    vessels: u32,
    table: &mut [u32],
    calls: &[Call],
    answers: &mut [u32],
    room: &mut [u32],
) -> Reply
    ensures { CarriesOut rule vessels calls.now table.old answers.old room.old
        result table.new answers.new room.new }
{
    match opening::check_opening(rule, vessels) {
        Ok(()) => {
            let n = calls.len().min(answers.len());
            let fresh = opening::empty_head(rule, vessels);
            let head = make_all(fresh, table, &calls[..n], answers, room);
            Reply { number: 0, head }
        }
        Err(why) => opening::refused(u32::from(why)),
    }
}
