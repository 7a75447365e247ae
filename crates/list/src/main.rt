// The listing program: the sheet on standard input is run on a table of 4,096 places, and the run is listed on standard
// output.
#![tactic(auto)]

use std::io;

fn main(rt: HostRuntime) -> io::Result<()> {
    listing::list(&mut rt.stdin(), &mut rt.stdout())
}
