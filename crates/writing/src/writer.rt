// Writing a sheet: its checks, in order, and its bytes from the front.
ghost use Rattle.std.specs.Prelude.{◌≡◌, ◌≤◌, ◌+◌, ◌*◌, length, map};
ghost use Rattle.std.proofs.lemmas.List.Edits.{sets};
ghost use Rattle.refusal.specs.Numbers.{first};
ghost use Rattle.refusal.specs.Refusals.{outcome_number};
ghost use Rattle.book.specs.Head.{most_vessels};
ghost use Rattle.fields.specs.Movements.{entry_size, given_in, entries_given, entry_bytes, entries_bytes};
ghost use Rattle.fields.specs.Layout.{name_size, rule_at, names_at, sheet_size, Within};
ghost use Rattle.writing.specs.Writing.{count_given, count_bytes, layout_bytes, header_bytes, sheet_of, given_off, count_checks, content_checks, write_number};

use fields::bytes::{put_bytes, put_number};
use fields::entries::{Entry, given};
use fields::layout::{
    ENTRIES_AT, ENTRY_SIZE, GIVEN_SIZE, HEADER_SIZE, LENGTH_AT, MOVEMENTS_AT, NAME_SIZE, NAMES_AT,
    RULE_AT, VESSELS_AT, name_start, sheet_size,
};
use refusal::Refusal;
use sheet::answer::Header;

// What a sheet is to be written from.
#[derive(Clone, Copy)]
pub struct Draft<'a> {
    pub rule: u32,
    pub vessels: u32,
    pub names: &'a [u8],
    pub numbers: &'a [u32],
}

impl<'a> Draft<'a> {
    // The movements given, by their numbers.
    #[tactic(auto, using(fields::proofs::ChunkLaws::given_chunks))]
    fn movements(&self) -> &'a [[u32; GIVEN_SIZE]]
        ensures movements { map given_in result.now ≡ entries_given (count_given self.now.numbers.now) self.now.numbers.now }
        ensures count { length result.now ≡ count_given self.now.numbers.now }
    {
        self.numbers.as_chunks().0
    }

    // Whether the name bytes are not 8 for each vessel, or the numbers not 5 for each movement.
    #[tactic(auto, unfolding(crate::specs::Writing::given_off))]
    fn is_off(&self) -> bool
        requires { self.now.vessels ≤ most_vessels }
        ensures { result ≡ given_off self.now.vessels self.now.names.now self.now.numbers.now }
    {
        self.names.len() != NAME_SIZE * (self.vessels as usize)
            || self.numbers.len() % GIVEN_SIZE != 0
    }

    // The first check that the rule and the counts fail.
    fn check_counts(&self) -> Result<(), Refusal>
        ensures { outcome_number result ≡ first (count_checks self.now.rule self.now.vessels self.now.names.now self.now.numbers.now) }
    {
        ledger::opening::check_opening(self.rule, self.vessels)?;
        if self.is_off() {
            return Err(Refusal::Layout);
        }
        if fields::layout::movements_off(self.movements().len()) {
            return Err(Refusal::Movements);
        }
        Ok(())
    }

    // The first check that the names, the movements and the room fail.
    #[tactic(auto, using(crate::proofs::WriteLaws::out_name, crate::proofs::WriteLaws::out_room, crate::proofs::WriteLaws::out_movement, refusal::proofs::Refusals::outcomes))]
    fn check_content(&self, room: usize) -> Result<(), Refusal>
        requires { Within self.now.vessels (count_given self.now.numbers.now) × (length self.now.names.now ≡ name_size * self.now.vessels) }
        ensures { outcome_number result ≡ first (content_checks self.now.vessels (count_given self.now.numbers.now) self.now.names.now self.now.numbers.now room) }
    {
        let (names, _) = self.names.as_chunks::<NAME_SIZE>();
        if fields::names::names_off(names) {
            return Err(Refusal::Name);
        }
        let movements = self.movements();
        fields::entries::check_all_given(movements, self.vessels)?;
        if room < sheet_size(self.vessels, movements.len() as u32) {
            return Err(Refusal::OutputShort);
        }
        Ok(())
    }

    // The first check that what is to be written fails.
    #[tactic(auto, using(crate::proofs::WriteLaws::out_counts, crate::proofs::WriteLaws::out_content, crate::proofs::WriteLaws::content_fits, refusal::proofs::Refusals::outcomes))]
    pub fn check(&self, room: usize) -> Result<(), Refusal>
        ensures { outcome_number result ≡ write_number self.now.rule self.now.vessels self.now.names.now self.now.numbers.now room }
    {
        self.check_counts()?;
        self.check_content(room)
    }

    // Puts the sheet at the start of `out`.
    #[tactic(auto, using(fields::proofs::PutLaws::puts), unfolding(crate::specs::Writing::sheet_of))]
    pub fn put(&self, out: &mut [u8])
        requires { Within self.now.vessels (count_given self.now.numbers.now) × (length self.now.names.now ≡ name_size * self.now.vessels)
            × (sheet_size self.now.vessels (count_given self.now.numbers.now) ≤ length out.old) }
        ensures { out.new ≡ sets out.old 0 (sheet_of self.now.rule self.now.vessels self.now.names.now self.now.numbers.now) }
    {
        let movements = self.movements();
        let header = Header {
            rule: self.rule,
            vessels: self.vessels,
            movements: movements.len() as u32,
        };
        put_bytes(out, 0, &header_bytes(header));
        put_bytes(out, HEADER_SIZE, self.names);
        put_entries(out, name_start(self.vessels), movements);
    }
}

// Puts the rule and the counts into a header.
#[tactic(auto, using(fields::proofs::PutLaws::puts))]
fn put_counts(out: &mut [u8; HEADER_SIZE], header: Header)
    ensures { out.new ≡ sets out.old rule_at (count_bytes header.rule header.vessels header.movements) }
{
    put_number(out, RULE_AT, 2, header.rule);
    put_number(out, VESSELS_AT, 2, header.vessels);
    put_number(out, MOVEMENTS_AT, 4, header.movements);
}

// Puts where the parts lie, and the length, into a header.
#[tactic(auto, using(fields::proofs::PutLaws::puts))]
fn put_layout(out: &mut [u8; HEADER_SIZE], header: Header)
    requires { Within header.vessels header.movements }
    ensures { out.new ≡ sets out.old names_at (layout_bytes header.vessels header.movements) }
{
    let start = name_start(header.vessels);
    let size = sheet_size(header.vessels, header.movements);
    put_number(out, NAMES_AT, 4, HEADER_SIZE as u32);
    put_number(out, ENTRIES_AT, 4, start as u32);
    put_number(out, LENGTH_AT, 4, size as u32);
}

// The bytes of a header.
#[tactic(auto, using(fields::proofs::PutLaws::puts, crate::proofs::SheetPut::filled))]
fn header_bytes(header: Header) -> [u8; HEADER_SIZE]
    requires { Within header.vessels header.movements }
    ensures { result ≡ header_bytes header.rule header.vessels header.movements }
{
    let mut bytes = [0; HEADER_SIZE];
    put_bytes(&mut bytes, 0, &fields::layout::mark());
    put_counts(&mut bytes, header);
    put_layout(&mut bytes, header);
    bytes
}

// The bytes of a movement: of its vessels one each, of its age two.
fn entry_bytes(e: Entry) -> [u8; ENTRY_SIZE]
    ensures { result ≡ entry_bytes e }
{
    let [s0, _, _, _] = e.source.to_le_bytes();
    let [d0, _, _, _] = e.destination.to_le_bytes();
    let [a0, a1, _, _] = e.age.to_le_bytes();
    let [m0, m1, m2, m3] = e.minute.to_le_bytes();
    let [w0, w1, w2, w3] = e.weight.to_le_bytes();
    [s0, d0, a0, a1, m0, m1, m2, m3, w0, w1, w2, w3]
}

// Puts the movements given into the bytes from `at` on. Not into arrays: std's mutable chunks tell nothing of what the
// slice ends as.
#[tactic(auto, using(crate::proofs::SheetPut::entries_turn, crate::proofs::SheetPut::entries_end))]
fn put_entries(out: &mut [u8], at: usize, movements: &[[u32; GIVEN_SIZE]])
    requires { at + entry_size * length movements.now ≤ length out.old }
    ensures { out.new ≡ sets out.old at (entries_bytes (map given_in movements.now)) }
{
    for (i, five) in movements.iter().enumerate() {
        put_bytes(out, at + ENTRY_SIZE * i, &entry_bytes(given(five)));
    }
}
