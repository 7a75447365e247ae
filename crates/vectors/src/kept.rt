// A list of calls carried out on a fresh book of three vessels, and all that it keeps, clause by clause. `journal` cites
// a record for it; here every clause stands in full, so that one that is struck there is missed here.
ghost use Rattle.std.specs.Prelude.{◌≡◌, ◌++◌, ◌≤◌, ◌+◌, ℕ, true, false, map, drop, min, length};
ghost use Rattle.table.specs.Pieces.{held, sum, born_at};
ghost use Rattle.table.specs.Table.{places_of};
ghost use Rattle.book.specs.Head.{book_of, opened, adds_up};
ghost use Rattle.book.specs.Lists.{answered, transfers, tips, evens, stirs};
ghost use Rattle.conservation.specs.WeighBook.{blank, feed, forecast};
ghost use Rattle.conservation.specs.Conservation.{follow, numbers};
ghost use Rattle.journal.specs.Carried.{CarriesOut};
ghost use Rattle.vectors.specs.Vectors.{vessels};
ghost use Rattle.vectors.specs.Kept.{Opens, calls_made, journal_of};

use book::Reply;
use journal::Call;

pub fn carry_out(
    rule: u32,
    table: &mut [u32],
    calls: &[Call],
    answers: &mut [u32],
    room: &mut [u32],
) -> Reply
    // What is answered and written, as `journal` says it.
    ensures carries { CarriesOut rule vessels calls.now table.old answers.old room.old result table.new answers.new room.new }
    // Head, table and numbers are those of the journal of the calls.
    ensures journal { Opens rule → let j = journal_of rule table.old calls.now answers.old room.old in
        (result ≡ record { number = 0; head = j.head }) × (table.new ≡ j.table)
        × (answers.new ≡ map (λ e. e.number) j.log ++ drop (min (length calls.now) (length answers.old)) answers.old) }
    // The pieces are those that the accepted calls leave in turn.
    ensures in_turn { Opens rule → let j = journal_of rule table.old calls.now answers.old room.old in
        book_of j.head j.table ≡ follow (opened rule vessels) (answered j.log) }
    // In each vessel and on the scale they sum to the weigh book's weight there.
    ensures vessel_sums { Opens rule → (v : ℕ) → let j = journal_of rule table.old calls.now answers.old room.old in
        held v (book_of j.head j.table).pieces ≡ (feed (blank vessels) (answered j.log)).weight v }
    // For each origin and birth minute they sum to what was born.
    ensures birth_sums { Opens rule → (o m : ℕ) → let j = journal_of rule table.old calls.now answers.old room.old in
        sum (born_at o m) (book_of j.head j.table).pieces ≡ (feed (blank vessels) (answered j.log)).births o m }
    // Pieces and even transfers together are the accepted ones, where no pick is made by rule 4.
    ensures even_count { Opens rule → let j = journal_of rule table.old calls.now answers.old room.old in
        stirs j.log ≡ false → j.head.pieces + evens j.log ≡ j.head.accepted }
    // The head counts the accepted transfers and lifts.
    ensures accepted_count { Opens rule → let j = journal_of rule table.old calls.now answers.old room.old in
        j.head.accepted ≡ transfers (answered j.log) }
    // The weigh book alone gives every number, where there are places enough and no pick is made by rule 4.
    ensures forecasts { Opens rule → let j = journal_of rule table.old calls.now answers.old room.old in
        let listed = calls_made rule table.old calls.now answers.old room.old in
        stirs j.log ≡ false → transfers listed ≤ places_of table.old → (1 ≤ tips listed → 4 ≤ length table.old)
        → numbers j.log ≡ forecast (blank vessels) listed }
    // The book adds up.
    ensures adds_up { Opens rule → let j = journal_of rule table.old calls.now answers.old room.old in
        adds_up j.head j.table ≡ true }
{
    journal::carry_out(rule, 3, table, calls, answers, room)
}
