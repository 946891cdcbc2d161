// Listings of objects (ipcs(1)).

ghost use Rattle.std.specs.Prelude.{◌≡◌, ◌<◌, ◌++◌, length, map, option_map, Some, IfOk, OnOk};
ghost use Rattle.ipc_model.specs.Decision.{left_by, outcome_of};
ghost use Rattle.ipc_model.specs.Decide.{decide_alive as decision_on};
ghost use Rattle.ipc_model.specs.Listings.{
  ids_of_kind,
  line_at as line_in,
  lines_of,
  lines_of_kind,
  row_at,
  rows_to,
  values_in,
};

use crate::namespace::Namespace;
use ipc_call::{Answer, Call, Items, Kind, Memory, Outcome, Row};
use ipc_creds::Creds;
use ipc_perm::{TO_READ, Verdict, decide};

impl Namespace {
    /// The objects of a kind that the client may read. The error comes only where an allocation fails.
    #[tactic(auto, unfolding(ipc_model::specs::Decide::part_plan))]
    pub(super) fn list(&self, client: u32, kind: Kind) -> Result<Outcome, Memory>
        requires known { client < length self.now.clients }
        ensures outcome { IfOk result (λ outcome. outcome_of (decision_on self.now client (Call.Listing kind)) ≡ Some outcome) }
        ensures same { left_by self.now (decision_on self.now client (Call.Listing kind)) ≡ self.now }
    {
        let rows = self.rows_to(&self.clients[client as usize], kind)?;
        Ok(Ok(Answer::Rows(Items::new(rows))))
    }

    /// The rows of the objects of a kind that these credentials may read.
    fn rows_to(&self, creds: &Creds, kind: Kind) -> Result<Vec<Row>, Memory>
        ensures { IfOk result (λ rows. rows.items ≡ rows_to self.now creds.now kind) }
    {
        let ids = self.ids(kind)?;
        ids.iter()
            .filter_map(|id| self.row_to(creds, kind, *id))
            .collect(*self.clients.allocator())
    }

    /// The row of an object, where these credentials may read it.
    fn row_to(&self, creds: &Creds, kind: Kind, id: u32) -> Option<Row>
        ensures { result ≡ row_at self.now creds.now kind id }
    {
        let (perm, status) = self.status_of(kind, id)?;
        match decide(creds, &perm, TO_READ) {
            Verdict::Allowed(_) => Some(Row::new(id, &status)),
            Verdict::Denied(_) => None,
        }
    }

    /// The identifiers of the objects of a kind, by rising slot.
    fn ids(&self, kind: Kind) -> Result<Vec<u32>, Memory>
        ensures { IfOk result (λ ids. ids.items ≡ ids_of_kind self.now kind) }
    {
        match kind {
            Kind::Queue => self.queues.ids(),
            Kind::Sems => self.sets.ids(),
            Kind::Segment => self.segments.ids(),
        }
    }

    /// Each object, whoever may read it: the queues, the semaphore sets with their values, and the segments, each kind by
    /// rising slot. The error comes only where an allocation fails.
    pub fn lines(&self) -> Result<Vec<(Row, Vec<u16>)>, Memory>
        ensures { IfOk result (λ lines. map (λ line. (line.0, line.1.items)) lines.items ≡ lines_of self.now) }
    {
        let mut lines = Vec::new(*self.clients.allocator());
        self.add_lines(Kind::Queue, &mut lines)?;
        self.add_lines(Kind::Sems, &mut lines)?;
        self.add_lines(Kind::Segment, &mut lines)?;
        Ok(lines)
    }

    /// Appends the objects of a kind. Where memory comes, some of them may stand there.
    fn add_lines(&self, kind: Kind, lines: &mut Vec<(Row, Vec<u16>)>) -> Result<(), Memory>
        ensures { OnOk result (map (λ line. (line.0, line.1.items)) lines.new.items ≡ map (λ line. (line.0, line.1.items)) lines.old.items ++ lines_of_kind self.now kind) }
    {
        let ids = self.ids(kind)?;
        for id in ids.as_slice() {
            if let Some(line) = self.line_at(kind, *id)? {
                lines.push(line)?;
            }
        }
        Ok(())
    }

    /// The object of an identifier, with the values of a set.
    fn line_at(&self, kind: Kind, id: u32) -> Result<Option<(Row, Vec<u16>)>, Memory>
        ensures { IfOk result (λ line. option_map (λ line. (line.0, line.1.items)) line ≡ line_in self.now kind id) }
    {
        let Some((_, status)) = self.status_of(kind, id) else {
            return Ok(None);
        };
        let values = self.values_in(kind, id)?;
        Ok(Some((Row::new(id, &status), values)))
    }

    /// The values of the semaphores of a set; an object of another kind has none.
    fn values_in(&self, kind: Kind, id: u32) -> Result<Vec<u16>, Memory>
        ensures { IfOk result (λ values. values.items ≡ values_in self.now kind id) }
    {
        match kind {
            Kind::Sems => self.sets.values(id),
            _ => Ok(Vec::new(*self.clients.allocator())),
        }
    }
}
