// strikes: how long a strike of a full book takes.
#![tactic(auto)]

mod full;
mod striking;

use striking::time_strikes;

fn main(rt: HostRuntime) -> anyhow::Result<()> {
    time_strikes(&rt)
}
