//! What the exit of a client leaves of the semaphore sets (semop(2), SEM_UNDO).

ghost use Rattle.std.specs.Prelude.{◌≡◌, ℕ};
ghost use Rattle.ipc_model.specs.Semaphores.{after_exit, undone_set};
ghost use Rattle.ipc_objects.specs.Objects.{changed};
ghost use Rattle.sem_set.specs.Trials.{adj_in};
ghost use Rattle.sem_calls.specs.WithRows.{row_at, sems_of};

use crate::sets::Sets;
use object_calls::Caller;

impl Sets {
    /// Undoes what the caller's operations with SEM_UNDO did, as its exit does (semop(2), SEM_UNDO): each value has its
    /// semadj added, and is brought into 0 to SEMVMX. Its rows go. It takes no memory.
    pub fn exit(&mut self, who: &Caller)
        ensures sems { sems_of self.new ≡ after_exit (sems_of self.old) who.entry.now }
        ensures rows { (client set : ℕ) → (client ≡ who.entry.now.process → ⊥)
            → row_at self.new client set ≡ row_at self.old client set }
    {
        while let Some((id, adjs)) = self.undo.take_all(who.process()) {
            self.undo_row(who, id, adjs.as_slice());
        }
    }

    /// Adds the semadj of a row to the values of a set, where there is one.
    fn undo_row(&mut self, who: &Caller, id: u32, adjs: &[i32])
        ensures { self.new ≡ record self.old {
          sets = changed self.old.sets id (λ set. record set {
            contents = undone_set (adj_in adjs.now) who.entry.now.pid who.entry.now.now set.contents;
          });
        } }
    {
        let Some(set) = self.sets.contents_mut(id) else {
            return;
        };
        if set.semaphores.undo(adjs, who.pid()) {
            set.op_time = who.now();
        }
    }
}
