// The header of a sheet: its mark, its numbers, and where its parts lie.
ghost use Rattle.std.specs.Prelude.{◌≡◌, ◌≤◌, length, MatchResult};
ghost use Rattle.refusal.specs.Numbers.{first};
ghost use Rattle.refusal.specs.Refusals.{number_of};
ghost use Rattle.fields.specs.Layout.{header_size, Within};
ghost use Rattle.sheet.specs.Sheet.{no_sheet, layout_off, header_checks};
ghost use Rattle.sheet.specs.Answers.{header_numbers};

use crate::answer::Header;
use fields::bytes::{read16, read32};
use fields::layout::{
    ENTRIES_AT, HEADER_SIZE, LENGTH_AT, MOVEMENTS_AT, NAMES_AT, RULE_AT, VESSELS_AT, name_start,
    sheet_size,
};
use refusal::Refusal;

// The numbers of a header.
fn header_numbers(sheet: &[u8]) -> Header
    requires { header_size ≤ length sheet.now }
    ensures { result ≡ header_numbers sheet.now }
{
    Header {
        rule: read16(sheet, RULE_AT),
        vessels: read16(sheet, VESSELS_AT),
        movements: read32(sheet, MOVEMENTS_AT),
    }
}

// Whether the sheet is too short for a header, or begins with another mark.
#[tactic(auto, using(std::proofs::lemmas::Bool::Decides::nat_tests), unfolding(crate::specs::Sheet::no_sheet))]
fn no_sheet(sheet: &[u8]) -> bool
    ensures { result ≡ no_sheet sheet.now }
{
    sheet.len() < HEADER_SIZE || !sheet.starts_with(&fields::layout::mark())
}

// Whether an offset, the length field or the real length is wrong.
#[tactic(auto, unfolding(crate::specs::Sheet::layout_off))]
fn layout_off(sheet: &[u8], vessels: u32, movements: u32) -> bool
    requires { (header_size ≤ length sheet.now) × Within vessels movements }
    ensures { result ≡ layout_off vessels movements sheet.now }
{
    let start = name_start(vessels);
    let size = sheet_size(vessels, movements);
    let names_at = read32(sheet, NAMES_AT) as usize;
    let entries_at = read32(sheet, ENTRIES_AT) as usize;
    let length = read32(sheet, LENGTH_AT) as usize;
    names_at != HEADER_SIZE || entries_at != start || length != size || sheet.len() != size
}

// The numbers of a sheet's header, or the first check that the header fails.
pub fn read_header(sheet: &[u8]) -> Result<Header, Refusal>
    ensures { MatchResult result (λ header. (header ≡ header_numbers sheet.now) × (first (header_checks sheet.now) ≡ 0))
        (λ why. number_of why ≡ first (header_checks sheet.now)) }
{
    if no_sheet(sheet) {
        return Err(Refusal::NoSheet);
    }
    let header = header_numbers(sheet);
    ledger::opening::check_opening(header.rule, header.vessels)?;
    if fields::layout::movements_off(header.movements as usize) {
        return Err(Refusal::Movements);
    }
    if layout_off(sheet, header.vessels, header.movements) {
        return Err(Refusal::Layout);
    }
    Ok(header)
}
