// Makes many networks, as dice draw them. Settles each by the call `settle`, under each of the three searches, and route
// by route, asking all three for each route and pushing it here. Asks for the bottleneck before and after each settling.
// Prints what was found, and whether all agreed.
// tools/make_settlings.py makes the same lines by a model of its own, and compares them with a solver made elsewhere.
#![tactic(auto)]

mod changing;
mod checksum;
mod comparing;
mod copies;
mod cutting;
mod dice;
mod drawing;
mod ends;
mod figures;
mod form;
mod laying;
mod making;
mod plan;
mod pushing;
mod stepping;
mod three;
mod trying;

use copies::CopyRows;
use form::NETWORKS;
use std::io;
use trying::try_network;

fn main(rt: HostRuntime) -> io::Result<()> {
    let mut rows = CopyRows::new();
    for number in 0..NETWORKS {
        rt.println(try_network(number, &mut rows))?;
    }
    Ok(())
}
