//! Which nodes of a graph lie in circles with which.
use std::alloc::{AllocError, Global};

/// A graph: for each node those that its edges lead to.
pub(crate) struct Graph {
    targets: Vec<Vec<usize>>,
}

/// A hand-written `Drop`, to keep proofs small: what drops one has one call to prove.
impl Drop for Graph {
    fn drop(self) {
        let Graph { targets: _targets } = self;
    }
}

/// A node on the way of a search, and how many of its edges were looked at.
#[derive(Clone, Copy)]
struct Step {
    node: usize,
    looked: usize,
}

/// A search in depth: the nodes that it came to, in the order in which it left them.
struct Search<'g> {
    graph: &'g Graph,
    is_seen: Vec<bool>,
    way: Vec<Step>,
    left: Vec<usize>,
}

/// A hand-written `Drop`, to keep proofs small: what drops one has one call to prove.
impl<'g> Drop for Search<'g> {
    fn drop(self) {
        let Search {
            graph: _graph,
            is_seen: _is_seen,
            way: _way,
            left: _left,
        } = self;
    }
}

impl Graph {
    /// A graph of so many nodes, without edges.
    pub(crate) fn new(alloc: Global, count: usize) -> Result<Graph, AllocError> {
        let mut targets = Vec::new(alloc);
        for _node in 0..count {
            targets.push(Vec::new(alloc))?;
        }
        Ok(Graph { targets })
    }

    /// Adds an edge between two of its nodes.
    pub(crate) fn add(&mut self, from: usize, to: usize) -> Result<(), AllocError> {
        match self.targets.get_mut(from) {
            None => Ok(()),
            Some(targets) => Ok(targets.push(to)?),
        }
    }

    fn targets(&self, node: usize) -> &[usize] {
        match self.targets.get(node) {
            None => &[],
            Some(targets) => targets.as_slice(),
        }
    }

    /// Adds the edges of a node the other way round.
    fn add_turned(&self, turned: &mut Graph, node: usize) -> Result<(), AllocError> {
        for target in self.targets(node) {
            turned.add(*target, node)?;
        }
        Ok(())
    }

    /// The same graph with each edge the other way round.
    fn turned(&self, alloc: Global) -> Result<Graph, AllocError> {
        let mut turned = Graph::new(alloc, self.targets.len())?;
        for node in 0..self.targets.len() {
            self.add_turned(&mut turned, node)?;
        }
        Ok(turned)
    }
}

fn all_false(alloc: Global, count: usize) -> Result<Vec<bool>, AllocError> {
    let mut all = Vec::new(alloc);
    for _place in 0..count {
        all.push(false)?;
    }
    Ok(all)
}

impl<'g> Search<'g> {
    fn new(alloc: Global, graph: &'g Graph) -> Result<Search<'g>, AllocError> {
        Ok(Search {
            graph,
            is_seen: all_false(alloc, graph.targets.len())?,
            way: Vec::new(alloc),
            left: Vec::new(alloc),
        })
    }

    /// Comes to a node, unless it did before.
    fn come(&mut self, node: usize) -> Result<(), AllocError> {
        match self.is_seen.get_mut(node) {
            Some(is_seen) if !*is_seen => {
                *is_seen = true;
                Ok(self.way.push(Step { node, looked: 0 })?)
            }
            _ => Ok(()),
        }
    }

    /// Looks at the next edge of the last node on the way, or leaves it where there is none.
    fn go(&mut self, step: Step) -> Result<(), AllocError> {
        match self.graph.targets(step.node).get(step.looked) {
            None => Ok(self.left.push(step.node)?),
            Some(target) => {
                self.way.push(Step {
                    node: step.node,
                    looked: step.looked.saturating_add(1),
                })?;
                self.come(*target)
            }
        }
    }

    /// Comes to all nodes that a node leads to.
    fn come_to_all(&mut self, node: usize) -> Result<(), AllocError> {
        self.come(node)?;
        for _step in 0..u64::MAX {
            let Some(step) = self.way.pop() else {
                break;
            };
            self.go(step)?;
        }
        Ok(())
    }
}

/// For each node a number which those have, too, that it lies in a circle with.
pub(crate) fn circles(alloc: Global, graph: &Graph) -> Result<Vec<usize>, AllocError> {
    let mut search = Search::new(alloc, graph)?;
    for node in 0..graph.targets.len() {
        search.come_to_all(node)?;
    }
    numbered(alloc, &graph.turned(alloc)?, search.left.as_slice())
}

/// The nodes that each node of a list leads to and none before it did, with the number of that one.
fn numbered(alloc: Global, turned: &Graph, order: &[usize]) -> Result<Vec<usize>, AllocError> {
    let mut numbers = Vec::new(alloc);
    for node in 0..turned.targets.len() {
        numbers.push(node)?;
    }
    let mut search = Search::new(alloc, turned)?;
    for node in order.iter().rev() {
        let known = search.left.len();
        search.come_to_all(*node)?;
        note(&mut numbers, search.left.get(known..).unwrap_or(&[]), *node);
    }
    Ok(numbers)
}

/// Gives some nodes a number.
fn note(numbers: &mut Vec<usize>, nodes: &[usize], number: usize) {
    for node in nodes {
        if let Some(noted) = numbers.get_mut(*node) {
            *noted = number;
        }
    }
}
