ghost use Rattle.std.specs.Prelude.{◌≡◌, [], ◌∷◌, ◌++◌, ℕ, OnOk, OnErr};
ghost use Rattle.disk_model.specs.Arming.{line_that_hits, lines_after};
ghost use Rattle.memory_disks.specs.inner.Queues.{in_order, HasFirst};

use base_lists::NoMemory;
use std::alloc::Global;
use std::marker::Model;

/// Lines that wait for calls, each with the number of calls that still pass before it hits.
#[derive(Drop)]
pub struct Queue<T> {
    first: Option<(u64, T)>,
    later: Vec<(u64, T)>,
}

impl<T> Model for Queue<T> {
    ghost use Rattle.std.specs.Prelude.{List, ℕ};
    ghost use Rattle.std.specs.Coded.{coded_list, coded×, coded_ℕ};
    ghost use Rattle.memory_disks.specs.inner.Queues.{in_order, HasFirst};

    ghost Value = { List (ℕ × T) };

    ghost coded = { coded_list (coded× coded_ℕ T.code) };

    ghost view = { λ q. in_order q.first q.later.items };

    ghost invariant = { λ q. HasFirst q.first q.later.items };
}

impl<T: Copy + Drop> Queue<T> {
    /// Takes no memory.
    pub(crate) fn empty(alloc: Global) -> Queue<T>
        ensures { result ≡ [] }
    {
        Queue {
            first: None,
            later: Vec::new(alloc),
        }
    }

    /// Takes no memory.
    pub(crate) fn of(alloc: Global, passes: u64, line: T) -> Queue<T>
        ensures { result ≡ (passes, line) ∷ [] }
    {
        Queue {
            first: Some((passes, line)),
            later: Vec::new(alloc),
        }
    }

    /// One line more, behind those that wait.
    pub(crate) fn add(&mut self, passes: u64, line: T) -> Result<(), NoMemory>
        ensures ok { OnOk result (self.new ≡ self.old ++ (passes, line) ∷ []) }
        ensures err { OnErr result (self.new ≡ self.old) }
    {
        if self.first.is_none() {
            self.first = Some((passes, line));
            return Ok(());
        }
        self.later.push((passes, line))?;
        Ok(())
    }

    /// One call: the line that hits it, if one does.
    pub(crate) fn call(&mut self) -> Option<T>
        ensures hit { result ≡ line_that_hits self.old }
        ensures waiting { self.new ≡ lines_after self.old }
    {
        match self.first {
            None => None,
            Some((0, line)) => {
                self.first = take_first(&mut self.later);
                Some(line)
            }
            Some((passes, line)) => {
                self.first = Some((passes - 1, line));
                None
            }
        }
    }
}

/// Takes the first out, if there is one.
fn take_first<T: Copy + Drop>(lines: &mut Vec<(u64, T)>) -> Option<(u64, T)>
    ensures order { in_order result lines.new.items ≡ lines.old.items }
    ensures first { HasFirst result lines.new.items }
{
    if lines.is_empty() {
        return None;
    }
    Some(lines.remove(0))
}
