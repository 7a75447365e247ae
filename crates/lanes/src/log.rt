// The log of receipts: a slot's last note is its place in the order of receipt.
ghost use Rattle.std.specs.Prelude.{◌≡◌, ◌<◌, ◌≤◌, ◌*◌, length, take};
ghost use Rattle.table.specs.Table.{most_places, lay};
ghost use Rattle.lanes.specs.Store.{most_notes, pieces_in, Listed};
ghost use Rattle.lanes.specs.Steps.{Noted, Closed, Writable};
ghost use Rattle.lanes.specs.Closing.{Listable, Lists};

use super::Store;
use table::PLACES;

// Of the first so many notes of a log the last ones are listed: from the newest on, each slot that was not seen before is put in front of those found, until all are.
fn list_last(log: &[u16], noted: usize, count: usize, last: &mut [u16])
    requires { Listable log.now noted count last.old }
    ensures { Lists (take noted log.now) count last.new }
{
    let mut seen = [false; PLACES];
    let mut free = count;
    for k in 0..noted {
        let x = log[noted - 1 - k] as usize;
        if seen[x] {
            continue;
        }
        seen[x] = true;
        free -= 1;
        last[free] = x as u16;
        if free == 0 {
            return;
        }
    }
}

// The first so many notes of a log become others.
fn put_first(log: &mut [u16], notes: &[u16], count: usize)
    requires { (count ≤ length log.old) × (count ≤ length notes.now) }
    ensures { take count log.new ≡ take count notes.now }
{
    log[..count].copy_from_slice(&notes[..count]);
}

impl Store {
    // Slot x is received.
    pub(crate) fn receive(&mut self, x: usize)
        requires { (self.old.noted < most_notes) × (x < most_places) }
        ensures { Noted x self.old self.new }
    {
        self.log[self.noted] = x as u16;
        self.noted += 1;
    }

    // The log is closed: it keeps the last note of each slot.
    #[tactic(auto, using(crate::proofs::Listing::closable))]
    pub(crate) fn close(&mut self)
        requires { Listed self.old × (self.old.noted ≤ most_notes) }
        ensures { Closed self.old self.new }
    {
        let (count, noted) = (self.count, self.noted);
        list_last(&self.log, noted, count, &mut self.spare);
        put_first(&mut self.log, &self.spare, count);
        self.noted = count;
    }

    // The pieces are written into a table in order of receipt, once the log is closed.
    pub(crate) fn write(&self, table: &mut [u32])
        requires { Writable self.now × (4 * self.now.count ≤ length table.old) }
        ensures { table.new ≡ lay (pieces_in self.now) table.old }
    {
        for j in 0..self.count {
            let x = self.log[j] as usize;
            table::put_piece(table, j + 1, j, self.pieces[x]);
        }
    }
}
