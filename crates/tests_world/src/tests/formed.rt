//! Which pools are well formed.

use super::is;
use std::alloc::Global;
use tests_pools::{Asked, before, pools_of, written};
use zr_model::is_well_formed;

/// Datasets behind the counters of their block, and whether they are well formed.
const BLOCKS: &str = "\
versions_that_are_well_formed
now 200 txg 50 guid 50;
  tank => yes
  tank @b:1 @a:2[hold] => yes
  tank @a:2 @b:1 => no
  tank @a:1 @b:1 => yes
  tank @b:1 @a:1 => no
  tank @a:1 #a:1 => yes
  tank #a:1 @a:1 => no
  tank @a:1 @a:2 => no
  tank @a:1[hold,hold] => no
  tank #a:1[hold] => no
  tank @a:50 => no

datasets_that_are_well_formed
now 200 txg 50 guid 50;
  tank;tank/x => yes
  tank/x;tank => no
  tank;tank => no";

/// The counters of pools.
#[derive(Clone, Copy)]
struct Counters<'a> {
    text: &'a str,
}

impl Asked for Counters<'_> {
    fn came(&mut self, alloc: Global, ask: &str) -> Option<String> {
        let text = format!(in alloc; "{}{ask}", self.text).ok()?;
        let pools = pools_of(alloc, text.as_str())?;
        let formed = is_well_formed(&pools);
        drop(pools);
        String::from_str(alloc, if formed { "yes" } else { "no" }).ok()
    }
}

fn came(alloc: Global, block: &str) -> Option<String> {
    let text = before(block);
    written(alloc, block, &mut Counters { text })
}

#[test]
fn pools_that_are_well_formed(rt: HostRuntime) {
    for block in BLOCKS.split("\n\n") {
        is(&rt, block, came(rt.alloc(), block));
    }
}
