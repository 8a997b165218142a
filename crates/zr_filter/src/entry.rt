//! One entry of a filter, and how it ranks among those that match a path. Apart from `filter`,
//! which asks all entries.

ghost use Rattle.std.specs.Prelude.{◌≡◌};
ghost use Rattle.zr_filter.specs.Rule.{allows_within, covers, is_exact, is_within, lies_below, root_length, subtree_rank};

use zr_names::Path;

/// One line of a filter (zrepl's documentation, "Filter Syntax").
#[derive(Drop)]
pub struct FilterEntry {
    /// None, with `subtree`, stands for `<` alone, which is above every path.
    pub path: Option<Path>,
    /// Whether the entry also speaks of the paths below its own.
    pub subtree: bool,
    /// Whether the filter matches the paths for which this entry counts.
    pub allow: bool,
}

/// The entries that a question is about.
#[derive(Clone, Copy)]
pub(crate) enum Among {
    All,
    Subtrees,
}

/// Whether a path lies below a root: it begins with the root, and a `/` follows.
fn lies_below(root: &Path, path: &Path) -> bool
    ensures { result ≡ lies_below root.now path.now }
{
    let root = root.as_bytes();
    let path = path.as_bytes();
    path.starts_with(root) && path.get(root.len()) == Some(&b'/')
}

fn is_within(root: &Path, path: &Path) -> bool
    ensures { result ≡ is_within root.now path.now }
{
    path == root || lies_below(root, path)
}

impl FilterEntry {
    ghost use Rattle.std.specs.Prelude.{◌≡◌, ◌≤◌};
    ghost use Rattle.zr_names.specs.declared.names.TheConstants.{PATH_LIMIT};
    ghost use Rattle.zr_filter.specs.Rule.{allows_within, covers, is_exact, rank_among, root_length, subtree_rank};

    fn is_exact(&self, path: &Path) -> bool
        ensures { result ≡ is_exact path.now self.now }
    {
        match &self.path {
            Some(own) => !self.subtree && path == own,
            None => false,
        }
    }

    fn covers(&self, path: &Path) -> bool
        ensures { result ≡ covers path.now self.now }
    {
        match &self.path {
            Some(root) => self.subtree && is_within(root, path),
            None => self.subtree,
        }
    }

    fn root_length(&self) -> usize
        ensures value { result ≡ root_length self.now.path }
        ensures short { result ≤ PATH_LIMIT }
    {
        match &self.path {
            Some(root) => root.as_bytes().len(),
            None => 0,
        }
    }

    fn subtree_rank(&self, path: &Path) -> usize
        ensures { result ≡ subtree_rank path.now self.now }
    {
        if self.covers(path) {
            self.root_length() + 1
        } else {
            0
        }
    }

    /// How closely the entry speaks of a path: 0 is not at all.
    pub(crate) fn rank(&self, among: Among, path: &Path) -> usize
        ensures { result ≡ rank_among among path.now self.now }
    {
        match among {
            Among::All if self.is_exact(path) => path.as_bytes().len() + 2,
            Among::All | Among::Subtrees => self.subtree_rank(path),
        }
    }

    /// Whether the entry allows, and its path is the root or lies below it.
    pub(crate) fn allows_within(&self, root: &Path) -> bool
        ensures { result ≡ allows_within root.now self.now }
    {
        match &self.path {
            Some(path) => self.allow && is_within(root, path),
            None => false,
        }
    }
}
