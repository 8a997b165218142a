//! Whether a filter matches a path, and whether it reaches a root.

ghost use Rattle.std.specs.Prelude.{◌≡◌, false};
ghost use Rattle.std.specs.List.{list_any};
ghost use Rattle.zr_filter.specs.Rule.{MatchesNothingWithin, allows, allows_within, counting, matches, rank_among, reaches};

use crate::entry::{Among, FilterEntry};
use zr_names::{Path, Rows};

/// Which filesystems a job works on. The order of entries tells only between equal ones.
#[derive(Drop)]
pub struct Filter {
    pub entries: Rows<FilterEntry>,
}

/// The answer of the entry that counts for a path, among all or among subtrees; false where none does.
fn allows(entries: &[FilterEntry], among: Among, path: &Path) -> bool
    ensures { result ≡ allows (counting (rank_among among path.now) entries.now) }
{
    let mut greatest = 0;
    let mut allow = false;
    for entry in entries {
        let rank = entry.rank(among, path);
        if rank > 0 && rank >= greatest {
            greatest = rank;
            allow = entry.allow;
        }
    }
    allow
}

/// Whether a filter matches a path: the entry without `<` for this very path decides, else the subtree
/// entry with the longest path at or above it, and of equal entries the last. With none it does not.
pub fn matches(filter: &Filter, path: &Path) -> bool
    ensures { result ≡ matches filter.now path.now }
{
    allows(filter.entries.as_slice(), Among::All, path)
}

fn some_allows_within(entries: &[FilterEntry], root: &Path) -> bool
    ensures { result ≡ list_any (allows_within root.now) entries.now }
{
    entries.iter().any(|entry| entry.allows_within(root))
}

/// Whether a filter may match a path at or below a root: the subtree entry that counts for the root
/// allows, or some entry whose path is the root or below it does. A filter that does not reach a root matches nothing at or below it.
pub fn reaches(filter: &Filter, root: &Path) -> bool
    ensures value { result ≡ reaches filter.now root.now }
    ensures outside { result ≡ false → MatchesNothingWithin filter.now root.now }
{
    let entries = filter.entries.as_slice();
    allows(entries, Among::Subtrees, root) || some_allows_within(entries, root)
}
