//! Which directories lie below others.

ghost use Rattle.std.specs.Prelude.{◌≡◌, true, false, None};
ghost use Rattle.nr_tree.specs.DirectoryGraph.{LiesBelow};
ghost use Rattle.nr_tree.specs.Sane.{skeleton};
ghost use Rattle.nr_tree.specs.Steps.{is_dir_at};
ghost use Rattle.nr_tree.specs.Within.{is_within as is_within_by_walk};
ghost use Rattle.nr_tree.specs.Ancestors.{WalksFindAncestors};

use crate::tree::Tree;

/// In every sane tree, a walk from a directory to its parent, and so on up to the root, finds a directory if and only if a path
/// leads up to it. So the rule by which RENAME refuses to move a directory into itself or below asks just that.
pub fn walks_find_ancestors()
    ensures { WalksFindAncestors }
{}

impl Tree {
    ghost use Rattle.nr_tree.specs.Sane.{skeleton as skeleton_of_tree};

    /// Whether a directory is `top` or lies below it: what RENAME asks of a directory that is moved (RFC 1813 section
    /// 3.3.14). Takes no memory.
    pub fn is_within(&self, dir: u64, top: u64) -> bool
        requires directory { is_dir_at self.now dir ≡ true }
        ensures walk { result ≡ is_within_by_walk (skeleton self.now) dir top }
        ensures below { result ≡ true → LiesBelow (skeleton self.now) None dir top }
        ensures apart { result ≡ false → LiesBelow (skeleton self.now) None dir top → ⊥ }
    {
        self.facts();
        self.is_within_inner(dir, top)
    }

    /// The walk from a directory to its parent, and so on up to the root.
    fn is_within_inner(&self, dir: u64, top: u64) -> bool
        ensures { result ≡ is_within_by_walk (skeleton self.now) dir top }
    {
        let mut number = dir;
        for _ in 0..self.next() {
            if number == top {
                return true;
            }
            if number == 1 {
                return false;
            }
            number = self.parent_of(number);
        }
        number == top
    }

    /// The directory that names a directory. Takes no memory.
    fn parent_of(&self, number: u64) -> u64
        ensures { result ≡ (skeleton_of_tree self.now).parent number }
    {
        match self.get(number) {
            Some(node) => node.parent,
            None => 0,
        }
    }
}
