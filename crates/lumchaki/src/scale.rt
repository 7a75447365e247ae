// Lift and tip for C and Rust.
ghost use Rattle.book.specs.Scale.{lift_of, tip_of};
ghost use Rattle.book.specs.Calls.{lift};
ghost use Rattle.motions.specs.Posting.{Posts, Tips};

use book::{Head, Lift, Reply, Tip, Transferred};

#[unsafe(no_mangle)]
pub extern "C" fn lumchaki_lift(
    head: Head,
    table: &mut [u32],
    source: u32,
    minute: u32,
    weight: u32,
    age: u16,
) -> Transferred
    ensures { Posts head (lift (lift_of source minute weight age)) table.old table.new result }
{
    let x = Lift {
        source,
        minute,
        weight,
        age,
    };
    posting::lift(head, table, x)
}

#[unsafe(no_mangle)]
pub extern "C" fn lumchaki_tip(
    head: Head,
    table: &mut [u32],
    destination: u32,
    minute: u32,
) -> Reply
    ensures { Tips head (tip_of destination minute) table.old table.new result }
{
    let y = Tip {
        destination,
        minute,
    };
    posting::tip(head, table, y)
}
