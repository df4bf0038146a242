//! Rule 10, of where slots may be used.
ghost use Rattle.std.specs.Prelude.{◌≡◌, ℕ, ◌<◌, false, length, None, replicate, slice_index, slice_index_or};
ghost use Rattle.levels.specs.Scan.{lowest};
ghost use Rattle.reading.specs.Meaning.{code_of};
ghost use Rattle.reading.specs.ScopeRule.{parent, adding, holds, within_command, within, scope, usable};
ghost use Rattle.reading.specs.ScopeRule.{expression_scoped, command_scoped, scoped, scope_broken};
ghost use Rattle.reading.specs.ReadingRefusal.{told};
ghost use Rattle.reading.specs.Trees.{tree_code};
ghost use Rattle.reading.specs.Verdict.{rule10};

use crate::bytes::Bytes;
use crate::fault::ReadingFault;
use crate::names::Named;
use crate::owners::Owners;
use crate::refuse::refuse_where;
use layout::node::{Command, Expression, Node};

fn adding(a: u8, set: u16) -> u16
    ensures { result ≡ adding a set }
{
    if a < 16 { set | 1 << a } else { set }
}

fn holds(set: u16, a: u8) -> bool
    ensures { result ≡ holds set a }
{
    a < 16 && (set >> a) % 2 == 1
}

// What is usable in the part j of a node where the set is usable.
fn within(node: Node, j: u16, set: u16) -> u16
    ensures { result ≡ within node j set }
{
    match node {
        Node::Command(Command::Let { slot, part, .. }) if part == j => adding(slot, set),
        _ => set,
    }
}

impl<'a> Bytes<'a> {
    // The node that names each node, into a list where none does.
    fn parents(&self, parents: &mut [Option<u16>; 4096])
        requires { parents.old ≡ replicate 4096 None }
        ensures { (j : ℕ) → j < 4096 → slice_index_or parents.new j None ≡ parent (code_of self.now) (length (code_of self.now).nodes) j }
    {
        self.by_namings(parents, |_, i| Some(i));
    }
}

impl<'t, 'a> Named<'t, 'a> {
    // The locals usable at each node, into a list where none is.
    fn scopes(&self, scopes: &mut [u16; 4096])
        requires { scopes.old ≡ replicate 4096 0 }
        ensures { (j : ℕ) → j < length (tree_code self.now.tree.now).nodes → slice_index scopes.new j ≡ scope (tree_code self.now.tree.now) (length (tree_code self.now.tree.now).nodes) j }
    {
        let bytes = self.tree.functions.bytes;
        let mut parents = [None; 4096];
        bytes.parents(&mut parents);
        // By number: each place is worked out from that of the node that names it.
        for j in (0..bytes.node_count()).rev() {
            if let Some(p) = parents[j as usize] {
                scopes[j as usize] = within(bytes.node(p), j, scopes[p as usize]);
            }
        }
    }

    /// Refuses the lowest node that breaks rule 10.
    pub fn scopes_fit(&self) -> Result<(), ReadingFault>
        ensures { told result ≡ rule10 (tree_code self.now.tree.now) }
    {
        let mut usable = [0; 4096];
        self.scopes(&mut usable);
        let scopes = Scopes {
            tree: self.tree,
            scopes: &usable,
        };
        let n = self.tree.functions.bytes.node_count();
        refuse_where(n, |i| scopes.breaks_scope(i), ReadingFault::OutOfScope)
    }
}

// The locals usable at each node of a tree. Not one type with the marks: what is known of the numbers differs.
#[derive(Clone, Copy)]
struct Scopes<'t, 'a> {
    tree: &'t Owners<'a>,
    // Lent, as the marks.
    scopes: &'t [u16; 4096],
    ghost filled: { (j : ℕ) → j < length (tree_code tree.now).nodes → slice_index scopes.now j ≡ scope (tree_code tree.now) (length (tree_code tree.now).nodes) j },
}

impl<'t, 'a> Scopes<'t, 'a> {
    fn usable(&self, i: u16, a: u8) -> bool
        requires { i < length (tree_code self.now.tree.now).nodes }
        ensures { result ≡ usable (tree_code self.now.tree.now) i a }
    {
        a <= self.tree.own(i).parameters || holds(self.scopes[i as usize], a)
    }

    fn scoped(&self, i: u16, node: Node) -> bool
        requires { i < length (tree_code self.now.tree.now).nodes }
        ensures { result ≡ scoped (tree_code self.now.tree.now) i node }
    {
        match node {
            Node::Expression(Expression::Slot(slot)) => self.usable(i, slot),
            Node::Command(Command::SetSlot { slot, .. } | Command::Call { slot, .. }) =>
                self.usable(i, slot),
            Node::Command(Command::Let { slot, .. }) => !self.usable(i, slot),
            _ => true,
        }
    }

    // Whether the node uses a slot that is not usable there, or is a let of one that is.
    fn breaks_scope(&self, i: u16) -> bool
        ensures { result ≡ scope_broken (tree_code self.now.tree.now) i }
    {
        let bytes = self.tree.functions.bytes;
        i < bytes.node_count() && !self.scoped(i, bytes.node(i))
    }
}
