// All checks of a sheet, in order; and a sheet that passed them, as a value.
ghost use Rattle.std.specs.Prelude.{◌≡◌, ◌<◌, ◌≤◌, length, map, MatchOption, MatchResult};
ghost use Rattle.refusal.specs.Numbers.{first};
ghost use Rattle.refusal.specs.Refusals.{number_of, outcome_number};
ghost use Rattle.book.specs.Transfer.{most_age};
ghost use Rattle.fields.specs.Movements.{entry_in};
ghost use Rattle.fields.specs.Layout.{sheet_size, Within};
ghost use Rattle.sheet.specs.Sheet.{body_checks, entries_read, movements_of, names_of, read_number};
ghost use Rattle.sheet.specs.Answers.{header_numbers, entry_at};

use crate::answer::Header;
use crate::header::read_header;
use fields::entries::{Entry, read_entry};
use fields::layout::{ENTRY_SIZE, HEADER_SIZE, NAME_SIZE, name_start};
use refusal::Refusal;
use std::marker::Model;

// The first check that what lies behind the header fails.
fn check_body(sheet: &[u8], vessels: u32, movements: u32) -> Result<(), Refusal>
    requires { Within vessels movements × (length sheet.now ≡ sheet_size vessels movements) }
    ensures { outcome_number result ≡ first (body_checks vessels movements sheet.now) }
{
    let start = name_start(vessels);
    let (names, _) = sheet[HEADER_SIZE..start].as_chunks::<NAME_SIZE>();
    if fields::names::names_off(names) {
        return Err(Refusal::Name);
    }
    let (entries, _) = sheet[start..].as_chunks::<ENTRY_SIZE>();
    fields::entries::check_entries(entries, vessels)
}

// A sheet that reads well: its bytes, which contracts see, and the numbers of their header. A type with a view and a
// lifetime cannot be `Copy`, so functions take it by reference.
#[derive(Drop)]
pub struct Sheet<'a> {
    bytes: &'a [u8],
    numbers: Header,
}

impl<'a> Model for Sheet<'a> {
    ghost use Rattle.std.specs.Prelude.{ℕ, List, ◌≡◌};
    ghost use Rattle.sheet.specs.Sheet.{read_number};
    ghost use Rattle.sheet.specs.Answers.{header_numbers};

    ghost Value = { List ℕ };

    ghost view = { λ sheet. sheet.bytes.now };

    ghost invariant = { λ sheet. (read_number sheet.bytes.now ≡ 0) × (sheet.numbers ≡ header_numbers sheet.bytes.now) };
}

impl<'a> Sheet<'a> {
    // The bytes as a sheet, or the first check that they fail.
    pub fn read(bytes: &'a [u8]) -> Result<Self, Refusal>
        ensures { MatchResult result (λ sheet. (sheet ≡ bytes.now) × (read_number bytes.now ≡ 0)) (λ why. number_of why ≡ read_number bytes.now) }
    {
        let numbers = read_header(bytes)?;
        check_body(bytes, numbers.vessels, numbers.movements)?;
        Ok(Sheet { bytes, numbers })
    }

    // The rule, the count of vessels and the count of movements.
    // That the sheet reads well is said here, since callers do not see the invariant.
    pub fn header(&self) -> Header
        ensures { (result ≡ header_numbers self.now) × (read_number self.now ≡ 0) }
    {
        self.numbers
    }

    // The bytes of all names.
    #[tactic(auto, using(crate::proofs::AnswerLaws::names_end))]
    pub fn names(&self) -> &'a [u8]
        ensures { result.now ≡ names_of self.now }
    {
        &self.bytes[HEADER_SIZE..name_start(self.header().vessels)]
    }

    // The movements, as the sheet has them.
    #[tactic(auto, using(crate::proofs::AnswerLaws::names_end))]
    fn entries(&self) -> &'a [[u8; ENTRY_SIZE]]
        ensures { map entry_in result.now ≡ entries_read self.now }
    {
        let (entries, _) = self.bytes[name_start(self.header().vessels)..].as_chunks();
        entries
    }

    // The movement at an index.
    pub fn movement(&self, index: u32) -> Entry
        requires { index < movements_of self.now }
        ensures { (result ≡ entry_at self.now index) × (result.age ≤ most_age) }
    {
        read_entry(&self.entries()[index as usize])
    }

    // The same, if the sheet has it.
    pub fn get(&self, index: u32) -> Option<Entry>
        ensures { MatchOption result (movements_of self.now ≤ index) (λ e. (index < movements_of self.now) × ((e ≡ entry_at self.now index) × (e.age ≤ most_age))) }
    {
        if index < self.header().movements {
            Some(self.movement(index))
        } else {
            None
        }
    }
}
