// The sizes and limits of a sheet, where the fields of its header lie, and its mark.
ghost use Rattle.std.specs.Prelude.{◌≡◌};
ghost use Rattle.fields.specs.Layout.{mark, name_start, sheet_size, movements_off};

pub const MARK_SIZE: usize = 4; // bytes of the mark

pub const HEADER_SIZE: usize = 24; // bytes of the header

pub const NAME_SIZE: usize = 8; // bytes of a name

pub const ENTRY_SIZE: usize = 12; // bytes of a movement

pub const GIVEN_SIZE: usize = 5; // numbers that the writer is given for a movement: s, d, t, q, age

pub const MOST_MOVEMENTS: usize = 4096;

pub const RULE_AT: usize = 4;

pub const VESSELS_AT: usize = 6;

pub const MOVEMENTS_AT: usize = 8;

pub const NAMES_AT: usize = 12;

pub const ENTRIES_AT: usize = 16;

pub const LENGTH_AT: usize = 20;

// The four letters that a sheet begins with.
pub fn mark() -> [u8; MARK_SIZE]
    ensures { result ≡ mark }
{
    *b"PROV"
}

// Where the name of a vessel begins; for as many as there are vessels, where the movements begin.
pub fn name_start(vessel: u32) -> usize
    ensures { result ≡ name_start vessel }
{
    HEADER_SIZE + NAME_SIZE * (vessel as usize)
}

// The bytes of a sheet; and where a movement begins, by how many are before it.
pub fn sheet_size(vessels: u32, movements: u32) -> usize
    ensures { result ≡ sheet_size vessels movements }
{
    name_start(vessels) + ENTRY_SIZE * (movements as usize)
}

// Whether a sheet cannot have that many movements. It can have none.
pub fn movements_off(movements: usize) -> bool
    ensures { result ≡ movements_off movements }
{
    MOST_MOVEMENTS < movements
}
