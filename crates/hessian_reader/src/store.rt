//! The values that came, and the nodes that are open.

ghost use Rattle.std.specs.Prelude.{◌≡◌, ◌<◌, ◌≤◌, [], length, take, OnOk, IfOk};
ghost use Rattle.hessian_graph.specs.declared.value.Value.TheVariants.{Node};
ghost use Rattle.hessian_reader.specs.Runs.{Gives};
ghost use Rattle.hessian_reader.specs.States.{Count, less_lacking, lacks_none, with_begun, with_node, with_value};
ghost use Rattle.hessian_reader.specs.Views.{built_of, Builds};

use crate::grow::push;
use crate::stop::Stop;
use crate::table::{NodeTable, Sort};
use hessian_graph::Value;
use std::alloc::{AllocError, Global};

/// What an open node lacks.
#[derive(Clone, Copy)]
pub enum Lacks {
    /// Values up to `Z`.
    ToEnd,
    /// So many values.
    Count(usize),
    /// A key, or `Z`.
    Key,
    /// The value of a key.
    Mate,
}

/// A node that lacks values.
#[derive(Clone, Copy)]
pub struct OpenNode {
    /// Its number.
    pub node: u32,
    /// What it lacks.
    pub lacks: Lacks,
}

/// The roots and nodes so far.
#[derive(Drop)]
pub struct Store {
    /// Where new nodes take their memory.
    pub alloc: Global,
    /// The roots that came.
    pub roots: Vec<Value>,
    /// How many roots are to come.
    pub wanted: u32,
    /// The nodes that have begun, by their numbers.
    pub nodes: NodeTable,
    /// The nodes that lack values, the innermost last.
    pub open_nodes: Vec<OpenNode>,
}

/// An open node once it has one value more; nothing where it lacks no other.
fn after_value(lacking: OpenNode) -> Option<OpenNode>
    ensures { result ≡ less_lacking lacking.lacks lacking.node }
{
    let node = lacking.node;
    match lacking.lacks {
        Lacks::ToEnd => Some(OpenNode {
            node,
            lacks: Lacks::ToEnd,
        }),
        Lacks::Count(left) => {
            if left <= 1 {
                None
            } else {
                Some(OpenNode {
                    node,
                    lacks: Lacks::Count(left - 1),
                })
            }
        }
        Lacks::Key => Some(OpenNode {
            node,
            lacks: Lacks::Mate,
        }),
        Lacks::Mate => Some(OpenNode {
            node,
            lacks: Lacks::Key,
        }),
    }
}

/// How many values are lacking, or 0 where that isn't known.
fn known_count(lacks: Lacks) -> usize {
    match lacks {
        Lacks::Count(left) => left,
        _ => 0,
    }
}

impl Store {
    /// No values, of which so many roots are wanted.
    pub fn new(alloc: Global, wanted: u32) -> Store
        ensures { built_of result ≡ record { roots = []; wanted = wanted; nodes = []; open_nodes = [] } }
    {
        Store {
            alloc,
            roots: Vec::new(alloc),
            wanted,
            nodes: NodeTable::new(alloc),
            open_nodes: Vec::new(alloc),
        }
    }

    /// Gives a value to the innermost open node, or to the roots.
    #[inline(always)]
    pub fn give(&mut self, value: Value) -> Result<(), AllocError>
        ensures { OnOk result (built_of self.new ≡ with_value (built_of self.old).open_nodes value (built_of self.old)) }
    {
        match self.open_nodes.pop() {
            None => {
                push(&mut self.roots, value)?;
                self.wanted = self.wanted.saturating_sub(1);
            }
            Some(innermost) => {
                let room = known_count(innermost.lacks);
                self.nodes.push(innermost.node, value, room)?;
                if let Some(lacking) = after_value(innermost) {
                    push(&mut self.open_nodes, lacking)?;
                }
            }
        }
        Ok(())
    }

    /// Whether the innermost open node lacks a number of values that is known.
    pub fn lacks_known(&self) -> bool {
        match self.open_nodes.last() {
            Some(innermost) => matches!(innermost.lacks, Lacks::Count(_)),
            None => false,
        }
    }

    /// Takes the leaves and references that lie whole at the front of a piece, where the innermost open node lacks a known
    /// number of values, and no more of them than it lacks. It answers how many bytes they are.
    #[inline(always)]
    pub fn take_values(&mut self, piece: &[u8]) -> Result<usize, AllocError>
        ensures within { IfOk result (λ used. used ≤ length piece.now) }
        ensures gives { IfOk result (λ used. Gives (built_of self.old) (take used piece.now) (built_of self.new)) }
    {
        let Some(innermost) = self.open_nodes.pop() else {
            return Ok(0);
        };
        let node = innermost.node;
        match innermost.lacks {
            Lacks::Count(left) if left > 0 => {
                let taken = self.nodes.push_values(self.alloc, node, piece, left)?;
                if taken.values < left {
                    let lacks = Lacks::Count(left - taken.values);
                    push(&mut self.open_nodes, OpenNode { node, lacks })?;
                }
                Ok(taken.bytes)
            }
            _ => {
                push(&mut self.open_nodes, innermost)?;
                Ok(0)
            }
        }
    }

    /// Begins the node of this number.
    #[inline(always)]
    fn begin_at(&mut self, lacks: Lacks, sort: Sort, node: u32) -> Result<(), AllocError>
        requires { node ≡ length self.old.nodes }
        ensures { OnOk result (built_of self.new ≡ with_begun lacks sort node (built_of self.old)) }
    {
        self.nodes.begin(self.alloc, node, sort)?;
        match lacks {
            Lacks::Count(0) => {}
            _ => push(&mut self.open_nodes, OpenNode { node, lacks })?,
        }
        Ok(())
    }

    /// Begins the next node, as a value of the node that it stands in.
    #[inline(always)]
    pub fn begin(&mut self, lacks: Lacks, sort: Sort) -> Result<(), Stop>
        ensures { Builds result (built_of self.new) (with_node lacks sort (built_of self.old)) }
    {
        // There are never so many nodes that their numbers run out.
        let Ok(node) = u32::try_from(self.nodes.len()) else {
            return Err(Stop::NoMemory);
        };
        self.give(Value::Node(node))?;
        self.begin_at(lacks, sort, node)?;
        Ok(())
    }

    /// Begins the next node, which lacks so many values, and takes of them the leaves and references that lie whole at the
    /// front of a piece. It answers how many bytes they are.
    #[inline(always)]
    pub fn begin_with_values(
        &mut self,
        count: usize,
        sort: Sort,
        piece: &[u8],
    ) -> Result<usize, AllocError>
        requires { 0 < count }
        ensures within { IfOk result (λ used. used ≤ length piece.now) }
        ensures gives { IfOk result (λ used.
            Gives (with_node (Count count) sort (built_of self.old)) (take used piece.now) (built_of self.new)) }
    {
        // There are never so many nodes that their numbers run out.
        let Ok(node) = u32::try_from(self.nodes.len()) else {
            return Err(AllocError);
        };
        self.give(Value::Node(node))?;
        self.nodes.begin(self.alloc, node, sort)?;
        let taken = self.nodes.push_values(self.alloc, node, piece, count)?;
        if taken.values < count {
            let lacks = Lacks::Count(count - taken.values);
            push(&mut self.open_nodes, OpenNode { node, lacks })?;
        }
        Ok(taken.bytes)
    }

    /// Whether the last root has ended.
    pub fn lacks_none(&self) -> bool
        ensures { result ≡ lacks_none (built_of self.now).open_nodes self.now.wanted }
    {
        self.open_nodes.is_empty() && self.wanted == 0
    }
}
