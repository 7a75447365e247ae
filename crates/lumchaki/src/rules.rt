// A vessel's rule set, for C and Rust.
ghost use Rattle.std.specs.Prelude.{◌≡◌};
ghost use Rattle.book.specs.Setting.{setting_of};
ghost use Rattle.book.specs.Calls.{set_rule};
ghost use Rattle.book.specs.Memory.{call_on, replied};

use book::{Head, Reply, Setting};

#[unsafe(no_mangle)]
pub extern "C" fn lumchaki_set_rule(head: Head, table: &[u32], vessel: u32, rule: u32) -> Reply
    ensures { result ≡ replied (call_on head table.now (set_rule (setting_of vessel rule))) }
{
    ledger::rules::set_rule(head, table, Setting { vessel, rule })
}
