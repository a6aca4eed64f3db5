//! Elements that lie whole in a piece, taken one after another with no bytes of them kept.

ghost use Rattle.std.specs.Prelude.{◌≡◌, ◌≤◌, ◌<◌, length, slice_index, take, false, Some, IfOk, IfSome, OnOk};
ghost use Rattle.hessian_reader.specs.Codes.{head_of};
ghost use Rattle.hessian_reader.specs.States.{State, Count, begins_node, is_done};
ghost use Rattle.hessian_reader.specs.Steps.{Leads, head_step, node_step};
ghost use Rattle.hessian_reader.specs.Views.{state_of};

use crate::element::Head;
use crate::leaves::{leaf_at_once, number_at_once};
use crate::lexer::head_of;
use crate::place::Place;
use crate::store::Lacks;
use crate::table::Sort;
use crate::work::{NODE_LIMIT, Work};
use hessian_graph::Value;
use std::alloc::AllocError;

/// What a node lacks and is, where it begins with its code.
fn begun_by(head: Head) -> Option<(Lacks, Sort)>
    ensures { IfSome result (λ p. (s : State) → head_step head s ≡ node_step p.0 p.1 s) }
{
    match head {
        Head::ShortList(count) => Some((Lacks::Count(count), Sort::List(None))),
        Head::OpenList => Some((Lacks::ToEnd, Sort::List(None))),
        Head::OpenMap => Some((Lacks::Key, Sort::Map(None))),
        _ => None,
    }
}

impl Work {
    /// Takes the elements that lie whole at the front of a piece, where a value may stand, and answers how many bytes they are.
    pub fn take_run(&mut self, piece: &[u8]) -> Result<usize, AllocError>
        requires here { self.old.place ≡ Place.AtValue }
        ensures within { IfOk result (λ used. used ≤ length piece.now) }
        ensures place { IfOk result (λ used. self.new.place ≡ Place.AtValue) }
        ensures leads { IfOk result (λ used. Leads (state_of self.old) (take used piece.now) (state_of self.new)) }
    {
        let mut taken = 0;
        while taken < piece.len() {
            let used = self.take_next(&piece[taken..])?;
            if used == 0 {
                return Ok(taken);
            }
            taken += used;
        }
        Ok(taken)
    }

    /// Takes one element or more, where the first lies whole at the front of a piece.
    fn take_next(&mut self, piece: &[u8]) -> Result<usize, AllocError>
        requires here { self.old.place ≡ Place.AtValue }
        ensures within { IfOk result (λ used. used ≤ length piece.now) }
        ensures place { IfOk result (λ used. self.new.place ≡ Place.AtValue) }
        ensures leads { IfOk result (λ used. Leads (state_of self.old) (take used piece.now) (state_of self.new)) }
    {
        let [code, ..] = *piece else {
            return Ok(0);
        };
        if self.store.lacks_none() {
            return Ok(0);
        }
        match head_of(code) {
            None => self.values_at_once(piece),
            Some(Head::Refer) if self.store.lacks_known() => self.known_values(piece),
            Some(Head::Refer) => self.refer_at_once(piece),
            Some(Head::ShortObject(number)) => self.object_at_once(number, piece),
            Some(head) => self.node_at_once(head, piece),
        }
    }

    /// Takes a leaf, and the leaves and references behind it where the innermost open node lacks a known number of values.
    fn values_at_once(&mut self, piece: &[u8]) -> Result<usize, AllocError>
        requires here { self.old.place ≡ Place.AtValue }
        requires lacking { is_done (state_of self.old) ≡ false }
        ensures within { IfOk result (λ used. used ≤ length piece.now) }
        ensures place { IfOk result (λ used. self.new.place ≡ Place.AtValue) }
        ensures leads { IfOk result (λ used. Leads (state_of self.old) (take used piece.now) (state_of self.new)) }
    {
        if self.store.lacks_known() {
            self.known_values(piece)
        } else {
            self.leaf_at_once(piece)
        }
    }

    /// Takes leaves and references of a node that lacks a known number of values.
    fn known_values(&mut self, piece: &[u8]) -> Result<usize, AllocError>
        requires here { self.old.place ≡ Place.AtValue }
        ensures within { IfOk result (λ used. used ≤ length piece.now) }
        ensures place { IfOk result (λ used. self.new.place ≡ Place.AtValue) }
        ensures leads { IfOk result (λ used. Leads (state_of self.old) (take used piece.now) (state_of self.new)) }
    {
        self.store.take_values(piece)
    }

    /// Takes a leaf.
    fn leaf_at_once(&mut self, piece: &[u8]) -> Result<usize, AllocError>
        requires here { self.old.place ≡ Place.AtValue }
        requires lacking { is_done (state_of self.old) ≡ false }
        ensures within { IfOk result (λ used. used ≤ length piece.now) }
        ensures place { IfOk result (λ used. self.new.place ≡ Place.AtValue) }
        ensures leads { IfOk result (λ used. Leads (state_of self.old) (take used piece.now) (state_of self.new)) }
    {
        match leaf_at_once(self.store.alloc, piece)? {
            Some((value, used)) => {
                self.store.give(value)?;
                Ok(used)
            }
            None => Ok(0),
        }
    }

    /// Takes a reference.
    fn refer_at_once(&mut self, piece: &[u8]) -> Result<usize, AllocError>
        requires here { self.old.place ≡ Place.AtValue }
        requires lacking { is_done (state_of self.old) ≡ false }
        requires some { 0 < length piece.now }
        requires code { head_of (slice_index piece.now 0) ≡ Some Head.Refer }
        ensures within { IfOk result (λ used. used ≤ length piece.now) }
        ensures place { IfOk result (λ used. self.new.place ≡ Place.AtValue) }
        ensures leads { IfOk result (λ used. Leads (state_of self.old) (take used piece.now) (state_of self.new)) }
    {
        match number_at_once(&piece[1..]) {
            Some((node, used)) if (node as usize) < self.store.nodes.len() => {
                self.store.give(Value::Node(node))?;
                Ok(1 + used)
            }
            _ => Ok(0),
        }
    }

    /// Takes the code of an object, and its first values.
    fn object_at_once(&mut self, number: u8, piece: &[u8]) -> Result<usize, AllocError>
        requires here { self.old.place ≡ Place.AtValue }
        requires lacking { is_done (state_of self.old) ≡ false }
        requires some { 0 < length piece.now }
        requires code { head_of (slice_index piece.now 0) ≡ Some (Head.ShortObject number) }
        ensures within { IfOk result (λ used. used ≤ length piece.now) }
        ensures place { IfOk result (λ used. self.new.place ≡ Place.AtValue) }
        ensures leads { IfOk result (λ used. Leads (state_of self.old) (take used piece.now) (state_of self.new)) }
    {
        let class = u32::from(number);
        match self.names.fields_of(class) {
            Some(count) => {
                if self.store.nodes.len() >= NODE_LIMIT {
                    return Ok(0);
                }
                let more = self.begin_with_values(count, Sort::Object(class), &piece[1..])?;
                Ok(1 + more)
            }
            None => Ok(0),
        }
    }

    /// Takes a code with which a node begins.
    fn node_at_once(&mut self, head: Head, piece: &[u8]) -> Result<usize, AllocError>
        requires here { self.old.place ≡ Place.AtValue }
        requires lacking { is_done (state_of self.old) ≡ false }
        requires some { 0 < length piece.now }
        requires code { head_of (slice_index piece.now 0) ≡ Some head }
        ensures within { IfOk result (λ used. used ≤ length piece.now) }
        ensures place { IfOk result (λ used. self.new.place ≡ Place.AtValue) }
        ensures leads { IfOk result (λ used. Leads (state_of self.old) (take used piece.now) (state_of self.new)) }
    {
        match begun_by(head) {
            Some((lacks, sort)) => {
                if self.store.nodes.len() >= NODE_LIMIT {
                    return Ok(0);
                }
                self.begin_here(lacks, sort)?;
                Ok(1)
            }
            None => Ok(0),
        }
    }

    /// Begins a node of so many values where a value may stand, and takes the first of them.
    #[inline(always)]
    fn begin_with_values(
        &mut self,
        count: usize,
        sort: Sort,
        piece: &[u8],
    ) -> Result<usize, AllocError>
        requires here { self.old.place ≡ Place.AtValue }
        ensures within { IfOk result (λ used. used ≤ length piece.now) }
        ensures place { IfOk result (λ used. self.new.place ≡ Place.AtValue) }
        ensures leads { IfOk result (λ used. Leads (begins_node (Count count) sort (state_of self.old)) (take used piece.now) (state_of self.new)) }
    {
        if count == 0 {
            self.begin_here(Lacks::Count(0), sort)?;
            Ok(0)
        } else {
            self.store.begin_with_values(count, sort, piece)
        }
    }

    /// Begins a node where a value may stand.
    #[inline(always)]
    fn begin_here(&mut self, lacks: Lacks, sort: Sort) -> Result<(), AllocError>
        requires here { self.old.place ≡ Place.AtValue }
        ensures begun { OnOk result (state_of self.new ≡ begins_node lacks sort (state_of self.old)) }
        ensures place { self.new.place ≡ Place.AtValue }
    {
        match self.store.begin(lacks, sort) {
            Ok(()) => Ok(()),
            Err(_) => Err(AllocError),
        }
    }
}
