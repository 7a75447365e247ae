// Opening a book.
ghost use Rattle.std.specs.Prelude.{◌≡◌, ◌≤◌};
ghost use Rattle.refusal.specs.Numbers.{first};
ghost use Rattle.refusal.specs.Refusals.{outcome_number};
ghost use Rattle.book.specs.Head.{most_vessels, given_rules, empty_head, not_opened, open_checks, opening};

use book::{Head, MOST_VESSELS, Reply};
use refusal::Refusal;

// The rules that a book can be opened with are numbered from 0 to this.
pub const LAST_RULE: u32 = 3;

// A book has at most this many vessels.
pub const VESSELS: u32 = MOST_VESSELS as u32;

// The rules of a fresh book's vessels, and 0 from V on.
#[tactic(auto, using(book::proofs::RuleLaws::given_written))]
fn given_rules(rule: u32, vessels: u32) -> [u32; MOST_VESSELS]
    requires { vessels ≤ most_vessels }
    ensures { result ≡ given_rules rule vessels }
{
    let mut rules = [0u32; MOST_VESSELS];
    for v in 0..vessels as usize {
        rules[v] = rule;
    }
    rules
}

// A head with this rule, for the book and each of this many vessels, and all other numbers 0.
pub fn empty_head(rule: u32, vessels: u32) -> Head
    requires { vessels ≤ most_vessels }
    ensures { result ≡ empty_head rule vessels }
{
    Head {
        rule,
        vessels,
        pieces: 0,
        last: 0,
        accepted: 0,
        balances: [0u32; MOST_VESSELS],
        scale: 0,
        rules: given_rules(rule, vessels),
    }
}

// A refusal: a head of zeros.
pub fn refused(number: u32) -> Reply
    ensures { result ≡ not_opened number }
{
    Reply {
        number,
        head: empty_head(0, 0),
    }
}

// The first check that a rule and a number of vessels fail.
pub fn check_opening(rule: u32, vessels: u32) -> Result<(), Refusal>
    ensures { outcome_number result ≡ first (open_checks rule vessels) }
{
    if LAST_RULE < rule {
        return Err(Refusal::RuleUnknown);
    }
    if vessels < 1 || VESSELS < vessels {
        return Err(Refusal::VesselCount);
    }
    Ok(())
}

// A fresh book under the rule, with this many vessels.
#[tactic(auto, using(book::proofs::HeadLaws::open_refused, book::proofs::HeadLaws::open_accepted))]
pub fn open(rule: u32, vessels: u32) -> Reply
    ensures { result ≡ opening rule vessels }
{
    match check_opening(rule, vessels) {
        Ok(()) => Reply {
            number: 0,
            head: empty_head(rule, vessels),
        },
        Err(why) => refused(u32::from(why)),
    }
}
