//! A client joins the list.
ghost use Rattle.std.specs.Prelude.{◌≡◌, ℕ, ◌+◌, ◌<◌, ◌≤◌, [], Some};
ghost use Rattle.pub_rule.specs.Lists.{IsListOf, head_of};
ghost use Rattle.pub_list.specs.Clients.{work, seen, told, tries, first_seen, BelongsTo, IsFreshOf};
ghost use Rattle.pub_rule.specs.WorkSplits.{starting};
ghost use Rattle.pub_rule.specs.declared.work.Stage.TheVariants.{Free};

use crate::fresh::Fresh;
use crate::joined::Joined;
use crate::list::List;
use pub_rule::{
    ExchangeHead, FetchSlot, LoadHead, Served, StoreNext, head_word, next_word, state_word,
};

impl<S: Served> Fresh<S> {
    /// Joins the list at its head. Each try that fails means that another client has joined meanwhile, so there are at
    /// most as many tries as clients. The client takes its own slot then, and asks nothing.
    pub fn join(self, list: &List<S>) -> Joined<S>
        requires { IsFreshOf list.now self }
        ensures client { (result.client ≡ self.client) × BelongsTo list.now result }
        ensures tries { (1 ≤ tries result) × (tries result ≤ list.now.clients) }
        ensures seen { head_of (seen result) ≡ Some self.client }
        ensures listed { IsListOf list.now.clients (seen result) }
        ensures told { told result ≡ [] }
        ensures work { work result ≡ starting (Free self.client) (first_seen self) }
    {
        let Fresh { mut seat, client } = self;
        let number = u64::from(client) + 1;
        let mut head = list.table.shared.load::<LoadHead>(&mut seat, head_word());
        loop {
            list.table
                .shared
                .store::<StoreNext>(&mut seat, next_word(client), head);
            let found = list
                .table
                .shared
                .compare_exchange::<ExchangeHead>(&mut seat, head_word(), head, number);
            if found == head {
                list.table
                    .shared
                    .load::<FetchSlot>(&mut seat, state_word(client));
                return Joined { seat, client };
            }
            head = found;
        }
    }
}
