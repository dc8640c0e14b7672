// Every gate of one mesh with every gate of another: the walk tables show a renumbering exactly where the search finds
// one, and the same one. Else there is a difference, and a line DIFFERENCE.
//
//     Seen    how many pairs of gates, equal strings, renumberings found, those that the walk tables show, differences
use crate::maps::{Gated, Mesh, map_of, search, shown};
use std::io;
use trial::{equal, plus};

#[derive(Clone, Copy, Default)]
pub struct Seen {
    pairs: u64,
    equal: u64,
    found: u64,
    shown: u64,
    pub differ: u64,
}

impl Seen {
    // One more pair of gates: whether it is a difference. Its strings are equal, the search finds a renumbering, and
    // the two maps are the same, or not.
    fn see(&mut self, strings: bool, found: bool, same: bool) -> bool {
        let differ = strings != found || (found && !same);
        self.pairs = plus(self.pairs, 1);
        self.equal = plus(self.equal, u64::from(strings));
        self.found = plus(self.found, u64::from(found));
        self.shown = plus(self.shown, u64::from((strings || found) && same));
        self.differ = plus(self.differ, u64::from(differ));
        differ
    }

    pub fn tell(self, rt: &impl Print) -> io::Result<()> {
        println!(rt;
            "pairs of gates={} equal strings={} renumberings={} as the walk tables show={} differences={}",
            self.pairs, self.equal, self.found, self.shown, self.differ
        )
    }
}

fn pair(rt: &impl Print, a: Gated, b: Gated, seen: &mut Seen) -> io::Result<()> {
    let walked = shown(a, b);
    let found = search(a, b);
    let same = equal(map_of(&walked), map_of(&found));
    if !seen.see(walked.is_ok(), found.is_ok(), same) {
        return Ok(());
    }
    println!(rt;
        "DIFFERENCE at gates {} and {}: equal strings={} renumbering={} as the walk tables show={}",
        a.gate,
        b.gate,
        u8::from(walked.is_ok()),
        u8::from(found.is_ok()),
        u8::from(same)
    )
}

pub fn pairs(rt: &impl Print, a: Mesh, b: Mesh) -> io::Result<Seen> {
    let mut seen = Seen::default();
    for g in 0..a.corners() {
        for h in 0..b.corners() {
            pair(rt, a.at(g), b.at(h), &mut seen)?;
        }
    }
    Ok(seen)
}
