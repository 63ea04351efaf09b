// Keeper 0 of three, with four meters in a table: for each line of standard input it writes the
// reply line, or X and the number of the refusal.
#![tactic(auto)]

mod serve;

use anyhow::Context;
use keeper::keeper::Keeper;
use kinds::meter::Meter;
use protocol::group::GroupSize;
use serve::serve;
use stores::table::TableStore;

fn run(rt: &HostRuntime) -> anyhow::Result<()> {
    let store = TableStore::<Meter>::new(rt.alloc(), 4)?;
    let keeper = Keeper::new(0, GroupSize::Three, store)
        .ok()
        .context("no keeper has this number")?;
    serve(rt, keeper)?;
    Ok(())
}

fn main(rt: HostRuntime) -> anyhow::Result<()> {
    run(&rt)
}
