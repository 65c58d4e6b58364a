//! That what is kept of consumer groups follows the offsets partition's log.
ghost use Rattle.std.specs.Prelude.{◌≡◌, ℕ, List, [], ◌∷◌, ◌++◌, filter_map};
ghost use Rattle.std.specs.List.{AllByRecursion};
ghost use Rattle.kx_members.specs.Follows.{Makes, SaysOffset, StandsFor};
ghost use Rattle.kx_members.specs.Standing.{Standing, after, drop_verdict, join_verdict};
ghost use Rattle.kx_members.specs.Standing.{leave_verdict, unknown};
ghost use Rattle.kx_members.specs.Table.{CanNote, group_in};
ghost use Rattle.kx_model.specs.Groups.{Fact, fact_of, generation, judge_drop, judge_join};
ghost use Rattle.kx_model.specs.Groups.{judge_leave, members, records_of};
ghost use Rattle.kx_model.specs.Log.{Entry};

/// What is kept of each group is how it stands by the log: nothing for the empty log, and with a
/// change of members that is made for the log with an entry that says it; an entry that says
/// nothing of a membership changes nothing. It gives the generation and the members by the log, and
/// what each change that is asked for comes to; and a change that is made can be noted.
pub fn the_groups_follow_the_log()
    ensures empty { StandsFor (λ group. unknown) [] }
    ensures same { (kept other : List ℕ → Standing) (log : List Entry)
        → ((group : List ℕ) → other group ≡ kept group) → StandsFor kept log
        → StandsFor other log }
    ensures change { (kept : List ℕ → Standing) (log : List Entry) (entry : Entry) (fact : Fact)
        → StandsFor kept log → Makes log fact
        → filter_map fact_of (records_of entry) ≡ fact ∷ []
        → StandsFor (λ group. after fact group (kept group)) (log ++ entry ∷ []) }
    ensures others { (kept : List ℕ → Standing) (log : List Entry) (entry : Entry)
        → StandsFor kept log
        → AllByRecursion SaysOffset (filter_map fact_of (records_of entry))
        → StandsFor kept (log ++ entry ∷ []) }
    ensures generation { (kept : List ℕ → Standing) (log : List Entry) (group : List ℕ)
        → StandsFor kept log → (kept group).generation ≡ generation log group }
    ensures members { (kept : List ℕ → Standing) (log : List Entry) (group : List ℕ)
        → StandsFor kept log → (kept group).members ≡ members log group }
    ensures join { (kept : List ℕ → Standing) (log : List Entry) (group : List ℕ) (member : ℕ)
        → StandsFor kept log
        → judge_join log group member ≡ join_verdict (kept group) group member }
    ensures leave { (kept : List ℕ → Standing) (log : List Entry) (group : List ℕ) (member : ℕ)
        → StandsFor kept log
        → judge_leave log group member ≡ leave_verdict (kept group) group member }
    ensures drop { (kept : List ℕ → Standing) (log : List Entry) (group : List ℕ) (member : ℕ)
        → StandsFor kept log
        → judge_drop log group member ≡ drop_verdict (kept group) group member }
    ensures noted { (kept : List ℕ → Standing) (log : List Entry) (fact : Fact)
        → StandsFor kept log → Makes log fact → CanNote (kept (group_in fact)) fact }
{}
