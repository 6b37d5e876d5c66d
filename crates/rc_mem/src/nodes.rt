//! Going over the nodes of a tree.

ghost use Rattle.std.specs.Iterator.{YieldsFirstRef, item_count};
ghost use Rattle.std.specs.Prelude.{◌≡◌};

use crate::TreeNode;
use rc_tree::Key;
use std::collections::btree_map::Values;
use std::marker::Model;

/// The nodes of a tree that are left to go over, in the order of their keys. Contracts see the list of them.
#[derive(Drop)]
pub struct Nodes<'a> {
    values: Values<'a, Key, TreeNode>,
}

impl<'a> Model for Nodes<'a> {
    ghost use Rattle.std.specs.Prelude.{List};
    ghost use Rattle.rc_mem.specs.declared.node.TreeNode.{TreeNode as Seen};

    ghost Value = { List Seen };

    ghost view = { λ n. n.values };
}

impl<'a> Nodes<'a> {
    pub(crate) fn new(values: Values<'a, Key, TreeNode>) -> Nodes<'a>
        ensures { result ≡ values.entry }
    {
        Nodes { values }
    }
}

impl<'a> Iterator for Nodes<'a> {
    type Item = &'a TreeNode;

    ghost next_gives = { YieldsFirstRef (λ n. n) };

    ghost remaining = { item_count (λ n. n) };

    fn next(&mut self) -> Option<&'a TreeNode> {
        self.values.next()
    }
}
