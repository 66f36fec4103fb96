//! Laws of shares. Each function does nothing: its contract is the law.

ghost use Rattle.std.specs.Prelude.{◌≡◌, ◌==◌, ◌≤◌, ℕ, List, Option, Some, filter, take};
ghost use Rattle.fm_records.specs.Table.{Table};
ghost use Rattle.fm_round.specs.declared.plan.Plan.{Plan};
ghost use Rattle.fm_share.specs.declared.share.Share.{Share};
ghost use Rattle.fm_share.specs.Shares.{IsSublist, has_task, is_in, is_writer, on_machine, share_of, whole, writers_of};

/// A share without writers and without a limit is the whole plan.
pub fn law_whole()
    ensures { (k : Table) (plan : Plan) → share_of k whole plan ≡ plan }
{}

/// A share has the entries of the plan in their order, and no others.
pub fn law_sublist()
    ensures places { (k : Table) (share : Share) (plan : Plan) → IsSublist (share_of k share plan).places plan.places }
    ensures preempts { (k : Table) (share : Share) (plan : Plan)
        → IsSublist (share_of k share plan).preempts plan.preempts }
{}

/// On each machine a share with a limit has the first places of the plan there that its writers leave, as many as the
/// limit says, or all of them if they are fewer.
pub fn law_each()
    ensures { (k : Table) (share : Share) (plan : Plan) (each m : ℕ) → share.each ≡ Some each
        → on_machine m (share_of k share plan).places
        ≡ take each (on_machine m (filter (λ p. has_task k share.writers p.task) plan.places)) }
{}

/// A number up to 64 is in the set of the numbers that are listed exactly if it is listed.
pub fn law_writers()
    ensures { (listed : List ℕ) (n : ℕ) → n ≤ 64 → is_writer (writers_of listed) n ≡ is_in n listed }
{}
