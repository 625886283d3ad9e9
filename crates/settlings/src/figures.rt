use crate::checksum::Checksum;
use crate::cutting::Asked;
use calls::Settled;
use marking::Bottleneck;
use network::{Network, Reaches};
use std::fmt;

// What settlings of one network came to.
#[derive(Clone, Copy)]
pub struct Figures {
    // how many routes were pushed, and the litres that they added
    pub routes: u32,
    pub litres: u64,
    // of all the routes' steps, and, after each settling, of its answer and of what the reaches carried
    pub checksum: Checksum,
    // whether all that was compared agreed
    pub same: bool,
    // whether the last settling left no route
    pub finished: bool,
    // the last bottleneck that was answered, and the checksum of all that was answered and refused when one was asked for
    pub cut: Bottleneck,
    pub cuts: Checksum,
}

impl Figures {
    // Before any settling.
    pub fn new() -> Figures {
        Figures {
            routes: 0,
            litres: 0,
            checksum: Checksum::new(),
            same: true,
            finished: false,
            cut: Bottleneck {
                sum: 0,
                crossing: 0,
            },
            cuts: Checksum::new(),
        }
    }

    // Adds what a settling answered, and what the network carries after it.
    pub fn add_settled<N: Network>(&mut self, settled: Settled, net: &N) {
        self.routes = self.routes.saturating_add(settled.routes);
        self.litres = self.litres.saturating_add(settled.litres);
        self.finished = settled.finished;
        self.checksum.add(u64::from(settled.routes));
        self.checksum.add(settled.litres);
        self.checksum.add(u64::from(settled.finished));
        for reach in Reaches::of(net) {
            self.checksum.add(u64::from(reach.carried));
        }
    }

    // Adds what was answered for the bottleneck of a network with n junctions.
    pub fn add_cut(&mut self, asked: &Asked, n: u16) {
        self.cut = asked.answer.unwrap_or(self.cut);
        asked.add_to(&mut self.cuts, n);
    }
}

// Two numbers and a checksum.
fn write_sums<W: fmt::Write>(
    f: &mut fmt::Formatter<W>,
    first: u64,
    second: u64,
    checksum: Checksum,
) -> fmt::Result {
    let Checksum(sum) = checksum;
    write!(f, "{first} {second} {sum:016x}")
}

impl fmt::Display for Figures {
    fn fmt<W: fmt::Write>(&self, f: &mut fmt::Formatter<W>) -> fmt::Result {
        write_sums(f, u64::from(self.routes), self.litres, self.checksum)?;
        f.write_str(", bottleneck ")?;
        write_sums(f, self.cut.sum, self.cut.crossing as u64, self.cuts)
    }
}
