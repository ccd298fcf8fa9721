// The making of runs in use, and what changes them.
ghost use Rattle.std.specs.Prelude.{◌≡◌, ◌+◌, ◌^◌, ◌<◌, ◌≤◌, [], Some, None, slice_set};
ghost use Rattle.std.specs.List.{insert, remove};
ghost use Rattle.regions.specs.Runs.{InOrder, in_use, slots, pages};
ghost use Rattle.regions.specs.Changes.{Unheld, Became, Cuttable, TakesNext, Joins, Changed};

use crate::run::Run;
use crate::runs::Runs;
use space::parts::Mapping;

impl<'a> Runs<'a> {
    // No runs. The buffer stays as it is.
    pub(crate) fn new(buffer: &'a mut [Run]) -> Runs<'a>
        ensures none { in_use result ≡ [] }
        ensures same { result.buffer.now ≡ buffer.old }
    {
        Runs { buffer, used: 0 }
    }

    // Takes every run out. The buffer stays as it is.
    pub(crate) fn clear(&mut self)
        ensures none { in_use self.new ≡ [] }
        ensures same { self.new.buffer.now ≡ self.old.buffer.now }
    {
        self.used = 0;
    }

    // Writes another run over run `at`.
    fn set(&mut self, at: usize, run: Run)
        requires { at < self.old.used }
        ensures { Became self.old self.new (slice_set (in_use self.old) at run) }
    {
        self.buffer[at] = run;
    }

    // Inserts a run: it becomes run `at`, and those from there on move up by one.
    fn insert(&mut self, at: usize, run: Run)
        requires within { at ≤ self.old.used }
        requires room { self.old.used < slots self.old }
        ensures { Became self.old self.new (insert (in_use self.old) at run) }
    {
        self.buffer.copy_within(at..self.used, at + 1);
        self.buffer[at] = run;
        self.used += 1;
    }

    // Takes run `at` out, and those behind it move down by one.
    fn remove(&mut self, at: usize)
        requires { at < self.old.used }
        ensures { Became self.old self.new (remove (in_use self.old) at) }
    {
        self.buffer.copy_within(at + 1..self.used, at);
        self.used -= 1;
    }

    // Lengthens a run by run `at`, where that goes on where the run ends, and takes run `at` out. Else run and list stay as they are.
    fn take_next(&mut self, at: usize, run: Run) -> Run
        requires { InOrder (in_use self.old) }
        ensures next { TakesNext (in_use self.old) at run (in_use self.new) result }
        ensures long { slots self.new ≡ slots self.old }
    {
        match self.as_slice().get(at) {
            Some(&next) if run.meets(next) => {
                self.remove(at);
                run.joined(next)
            }
            _ => run,
        }
    }

    // Lengthens the run before run `at` by a run that goes on where it ends. Else inserts that run as run `at`.
    fn join(&mut self, at: usize, run: Run)
        requires within { at ≤ self.old.used }
        requires room { self.old.used < slots self.old }
        requires high { run.first + run.count ≤ 2 ^ 26 }
        ensures join { Joins (in_use self.old) at run (in_use self.new) }
        ensures long { slots self.new ≡ slots self.old }
    {
        if let Some(i) = at.checked_sub(1)
            && let before = self.get(i)
            && before.meets(run)
        {
            self.set(i, before.joined(run));
        } else {
            self.insert(at, run);
        }
    }

    // Adds a page that no run holds. With the run before it and the run behind it it becomes one run, where these go on from each other.
    pub(crate) fn add(&mut self, page: u32, mapping: Mapping)
        requires order { InOrder (in_use self.old) }
        requires unheld { Unheld (in_use self.old) page }
        requires high { page < 2 ^ 26 }
        requires room { self.old.used < slots self.old }
        ensures runs { Changed page (Some mapping) (in_use self.old) (in_use self.new) }
        ensures count { pages (in_use self.new) ≡ pages (in_use self.old) + 1 }
        ensures long { slots self.new ≡ slots self.old }
    {
        let at = self.slot_for(page);
        let run = self.take_next(at, Run::single(page, mapping));
        self.join(at, run);
    }

    // Takes a page out of run `at`, which holds it: what the run has before the page and behind it stays.
    pub(crate) fn cut(&mut self, at: usize, page: u32)
        requires order { InOrder (in_use self.old) }
        requires there { Cuttable self.old page at }
        ensures runs { Changed page None (in_use self.old) (in_use self.new) }
        ensures count { pages (in_use self.new) + 1 ≡ pages (in_use self.old) }
        ensures long { slots self.new ≡ slots self.old }
    {
        let run = self.get(at);
        let before = run.before(page);
        let after = run.after(page);
        match (before.count, after.count) {
            (0, 0) => self.remove(at),
            (0, _) => self.set(at, after),
            (_, 0) => self.set(at, before),
            _ => {
                self.set(at, before);
                self.insert(at + 1, after);
            }
        }
    }
}
