// A network of pipes, and the most that flows through it: flow is added along shortest open paths.
use std::alloc::{AllocError, Global};

// Where all flow begins, and where it ends.
pub(crate) const SOURCE: usize = 0;

pub(crate) const SINK: usize = 1;
// More paths than any network here takes; one that took more would be compared as a wrong number.
const MAX_PATHS: usize = 1_000_000;

// A pipe, or the way back through one: the two stand beside each other, so that their places differ in the last bit.
#[derive(Clone, Copy)]
struct Pipe {
    to: usize,
    spare: i64,
}

#[derive(Drop)]
pub(crate) struct Network {
    heap: Global,
    pipes: Vec<Pipe>,
    // the pipes that leave each node
    leaving: Vec<Vec<usize>>,
}

impl Network {
    pub(crate) fn new(heap: Global) -> Network {
        Network {
            heap,
            pipes: Vec::new(heap),
            leaving: Vec::new(heap),
        }
    }

    pub(crate) fn add_node(&mut self) -> Result<usize, AllocError> {
        let node = self.leaving.len();
        self.leaving.push(Vec::new(self.heap))?;
        Ok(node)
    }

    pub(crate) fn add_pipe(&mut self, from: usize, to: usize, kw: i64) -> Result<(), AllocError> {
        let pipe = self.pipes.len();
        self.pipes.push(Pipe { to, spare: kw })?;
        self.pipes.push(Pipe { to: from, spare: 0 })?;
        if let Some(pipes) = self.leaving.get_mut(from) {
            pipes.push(pipe)?;
        }
        if let Some(pipes) = self.leaving.get_mut(to) {
            pipes.push(pipe ^ 1)?;
        }
        Ok(())
    }

    pub(crate) fn most(&mut self) -> Result<i64, AllocError> {
        let mut sum: i64 = 0;
        for _ in 0..MAX_PATHS {
            let reached_by = self.search()?;
            let path = self.path_to_sink(reached_by.as_slice())?;
            let kw = self.push_along(path.as_slice());
            if kw == 0 {
                break;
            }
            sum = sum.saturating_add(kw);
        }
        Ok(sum)
    }

    // For each node the pipe by which it is first reached, nearest nodes first.
    fn search(&self) -> Result<Vec<Option<usize>>, AllocError> {
        let mut reached_by = vec![in self.heap; None; self.leaving.len()]?;
        let mut queue = Vec::new(self.heap);
        queue.push(SOURCE)?;
        for turn in 0..self.leaving.len() {
            let Some(node) = queue.get(turn).copied() else {
                break;
            };
            let Some(leaving) = self.leaving.get(node) else {
                break;
            };
            for pipe in leaving {
                if let Some(to) = self.opens(*pipe, reached_by.as_slice()) {
                    if let Some(place) = reached_by.get_mut(to) {
                        *place = Some(*pipe);
                    }
                    queue.push(to)?;
                }
            }
        }
        Ok(reached_by)
    }

    // The node to which a pipe leads, if it is open and the node was not reached before.
    fn opens(&self, pipe: usize, reached_by: &[Option<usize>]) -> Option<usize> {
        let Pipe { to, spare } = self.pipes.get(pipe).copied()?;
        let is_new = to != SOURCE && matches!(reached_by.get(to), Some(None));
        if spare > 0 && is_new { Some(to) } else { None }
    }

    // The pipes of the path, from the sink back; none where the sink was not reached.
    fn path_to_sink(&self, reached_by: &[Option<usize>]) -> Result<Vec<usize>, AllocError> {
        let mut path = Vec::new(self.heap);
        let mut node = SINK;
        for _ in reached_by {
            let Some(pipe) = reached_by.get(node).copied().flatten() else {
                break;
            };
            path.push(pipe)?;
            node = self.pipes.get(pipe ^ 1).map_or(SOURCE, |back| back.to);
        }
        Ok(path)
    }

    // As much as the narrowest pipe of a path takes.
    fn push_along(&mut self, path: &[usize]) -> i64 {
        let mut least: Option<i64> = None;
        for pipe in path {
            let spare = self.pipes.get(*pipe).map_or(0, |pipe| pipe.spare);
            least = Some(least.map_or(spare, |kw| kw.min(spare)));
        }
        let kw = least.unwrap_or(0);
        for pipe in path {
            self.widen(*pipe, kw.saturating_neg());
            self.widen(*pipe ^ 1, kw);
        }
        kw
    }

    fn widen(&mut self, pipe: usize, kw: i64) {
        if let Some(pipe) = self.pipes.get_mut(pipe) {
            pipe.spare = pipe.spare.saturating_add(kw);
        }
    }
}
