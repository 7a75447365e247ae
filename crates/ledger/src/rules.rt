// The rules of a book's vessels: the one by which a holder's pieces are picked, and another one set for later picks.
ghost use Rattle.std.specs.Prelude.{◌≡◌, ◌<◌, ◌≤◌, List, ℕ};
ghost use Rattle.refusal.specs.Numbers.{first, if_zero};
ghost use Rattle.refusal.specs.Refusals.{outcome_number};
ghost use Rattle.book.specs.Head.{most_vessels, rule_at};
ghost use Rattle.book.specs.Setting.{setting_checks, ruled};
ghost use Rattle.book.specs.Calls.{set_rule};
ghost use Rattle.book.specs.Memory.{call_on, replied, Audited};
ghost use Rattle.ledger.specs.Setting.{Sets};

use super::audit;
use book::{Head, Reply, SCALE, Setting};
use refusal::Refusal;
use taking::{AS_RECEIVED, STIRRED};

// The rule by which a holder's pieces are picked: the scale has none of its own, and what lies there leaves it in the
// order it lies.
pub fn rule_at(head: &Head, holder: u32) -> u32
    ensures { result ≡ rule_at head.now.rules holder }
{
    if SCALE <= holder {
        return AS_RECEIVED;
    }
    let at = holder as usize;
    head.rules[at]
}

// The vessel's rule set in the head.
fn give_rule(head: &mut Head, s: Setting)
    requires { s.vessel < most_vessels }
    ensures { head.new ≡ ruled head.old s }
{
    let at = s.vessel as usize;
    head.rules[at] = s.rule;
}

// The checks after 1 and 4.
#[tactic(auto, unfolding(book::specs::Setting::setting_checks))]
fn check_setting(vessels: u32, s: Setting) -> Result<(), Refusal>
    ensures { outcome_number result ≡ first (setting_checks vessels s) }
{
    if vessels <= s.vessel {
        return Err(Refusal::NoVessel);
    }
    if STIRRED < s.rule {
        return Err(Refusal::RuleUnknown);
    }
    Ok(())
}

// A vessel's rule set on a book that adds up: one number of the head changes, where no check applies.
#[tactic(auto, using(crate::proofs::Ruled::set_inside))]
pub fn set_known(head: &mut Head, s: Setting) -> Result<(), Refusal>
    requires { head.old.vessels ≤ most_vessels }
    ensures number { outcome_number result ≡ first (setting_checks head.old.vessels s) }
    ensures head { head.new ≡ if_zero (first (setting_checks head.old.vessels s)) (ruled head.old s) head.old }
    ensures sets { (t : List ℕ) → Audited head.old t → Sets s head.old head.new t result }
{
    check_setting(head.vessels, s)?;
    give_rule(head, s);
    Ok(())
}

// The same on any book: 1 and 4 come first.
fn set_checked(head: &mut Head, table: &[u32], s: Setting) -> Result<(), Refusal>
    ensures { Sets s head.old head.new table.now result }
{
    audit::check_book(*head, table)?;
    set_known(head, s)
}

// A vessel's rule set, with the head by value.
pub fn set_rule(head: Head, table: &[u32], s: Setting) -> Reply
    ensures { result ≡ replied (call_on head table.now (set_rule s)) }
{
    let mut next = head;
    let number = refusal::number(set_checked(&mut next, table, s));
    Reply { number, head: next }
}
