//! Laws of the definitions.
ghost use Rattle.std.specs.Prelude.{◌≡◌, ◌<◌, ◌≤◌, ◌^◌, ◌⊎◌, ℕ, ℤ, List, [], Option, Some, Ok, Err};
ghost use Rattle.std.specs.Prelude.{true, false, is_some, not, ◌||◌};
ghost use Rattle.std.specs.List.{find};
ghost use Rattle.kx_membership.specs.MemberId.{IsIdOf, member_id_of};
ghost use Rattle.kx_membership.specs.Protocols.{assigned_to, later};
ghost use Rattle.kx_membership.specs.Roster.{any_goes, has, is_numbered};
ghost use Rattle.kx_membership.specs.Group.{after_due, after_end, after_heartbeat, after_settle};
ghost use Rattle.kx_membership.specs.Group.{after_sync, after_tick, again_refusal, asks, fence};
ghost use Rattle.kx_membership.specs.Group.{id_of, is_present, is_ready, joined_of, new_group, next_of};
ghost use Rattle.kx_membership.specs.Group.{number_of, synced_of, takes};
ghost use Rattle.kx_membership.specs.Steps.{IsAssigned, IsBefore, IsGroup, NoneJoins, SettlesAs, Step};
ghost use Rattle.kx_membership.specs.Steps.{after_all, after_step, is_settled, numbers};
ghost use Rattle.kx_membership.specs.declared.ask.Assignment.{Assignment};
ghost use Rattle.kx_membership.specs.declared.ask.JoinAsk.{JoinAsk};
ghost use Rattle.kx_membership.specs.declared.fault.GroupFault.{GroupFault};
ghost use Rattle.kx_membership.specs.declared.group.Group.{Group};
ghost use Rattle.kx_membership.specs.declared.group.Phase.{Phase};
ghost use Rattle.kx_membership.specs.declared.member.Going.{Going};
ghost use Rattle.kx_membership.specs.declared.member.Member.{Member};

/// A law: a member is answered an assignment only of its generation, and it is what the leader of
/// that generation assigned to it. Whatever happened to a group since it began, some step of it was
/// that leader's (`assigned`); the group is stable in this generation and has the member, and the
/// bytes are those of the assignments that it has (`answered`).
pub fn assignments_are_the_leaders()
    ensures answered { (g : Group) (number : ℕ) (generation : ℤ) (bytes : List ℕ)
        → synced_of g number generation ≡ Some (Ok bytes)
        → (g.phase ≡ Phase.Stable) × (g.generation ≡ generation)
        × (has number g.roster.members ≡ true) × (bytes ≡ assigned_to number g.assignments) }
    ensures assigned { (steps : List Step) (number : ℕ) (generation : ℤ) (bytes : List ℕ)
        → synced_of (after_all new_group steps) number generation ≡ Some (Ok bytes)
        → (given : List Assignment) × IsAssigned new_group steps generation given
        × (bytes ≡ assigned_to number given) }
{}

/// A law: while all have joined the members are those with whom the group was settled, in the
/// generation that the core gave (`members`, `generation`); no other step changes a generation.
pub fn generations_are_settled()
    ensures generation { (g : Group) (step : Step)
        → ((after_step g step).generation ≡ g.generation)
        ⊎ SettlesAs g step (after_step g step).generation }
    ensures members { (g : Group) (step : Step) → is_settled (after_step g step).phase ≡ true
        → numbers (after_step g step).roster.members ≡ numbers g.roster.members }
    ensures settled { (g : Group) (step : Step) → is_settled (after_step g step).phase ≡ true
        → (is_settled g.phase ≡ true) ⊎ SettlesAs g step (after_step g step).generation }
{}

/// A law: each request with a number that no member has is answered 25, whatever happens, until a
/// client joins with it that is no member yet.
pub fn those_gone_are_unknown()
    ensures join { (g : Group) (number : ℕ) (ask : JoinAsk) → has number g.roster.members ≡ false
        → again_refusal g number ask ≡ Some GroupFault.UnknownMember }
    ensures joined { (g : Group) (number : ℕ) → has number g.roster.members ≡ false
        → joined_of g number ≡ Some (Err GroupFault.UnknownMember) }
    ensures sync { (g : Group) (number : ℕ) (generation : ℤ)
        → has number g.roster.members ≡ false
        → (fence g number generation ≡ Some GroupFault.UnknownMember)
        × (synced_of g number generation ≡ Some (Err GroupFault.UnknownMember)) }
    ensures stays { (g : Group) (steps : List Step) (number : ℕ)
        → has number g.roster.members ≡ false → NoneJoins steps number
        → has number (after_all g steps).roster.members ≡ false }
{}

/// A law: if members have to join again the group is due once all wait, and at the deadline it
/// is due, or nobody is left and the core is owed nothing.
pub fn preparing_ends()
    ensures all { (g : Group) (until : ℕ) → g.phase ≡ Phase.Preparing until
        → any_goes Going.Silent g.roster.members ≡ false → is_ready g ≡ true }
    ensures deadline { (g : Group) (until now : ℕ) → g.phase ≡ Phase.Preparing until
        → until ≤ now → (is_ready (after_due g now) ≡ true)
        ⊎ (((after_due g now).phase ≡ Phase.Empty) × ((after_due g now).roster.gone ≡ [])) }
{}

/// A law: a group has at most 1,000 members, and its members' numbers and those that are owed to the
/// core are all different; it is empty exactly if it has no members; while all have joined no join
/// waits, and a member leads. A JoinGroup is answered exactly once it doesn't wait (`answered`).
pub fn groups_are_sound()
    ensures begun { IsGroup new_group }
    ensures kept { (g : Group) (step : Step) → IsGroup g → IsGroup (after_step g step) }
    ensures answered { (g : Group) (m : Member) (number : ℕ) → IsGroup g
        → find (is_numbered number) g.roster.members ≡ Some m
        → is_some (joined_of g number) ≡ not m.waits }
{}

/// A law: before the next time that a group says nothing happens to it: it isn't due, and time
/// changes nothing.
pub fn nothing_happens_before()
    ensures { (g : Group) (now : ℕ) → IsBefore now (next_of g)
        → (is_ready g ≡ false) × (after_due g now ≡ g) × (after_tick g now ≡ g) }
{}

/// A law: a member to which an answer is owed, or whose session hasn't ended, stays however much time
/// goes on (`stays`). A heartbeat begins its session anew, and a SyncGroup before the leader has
/// assigned waits (`heard`, `asks`). Once the leader has assigned nobody waits for it, and all
/// sessions begin anew (`assigned`). Once its connection has ended no answer is owed to a member
/// (`ended`).
pub fn members_that_wait_stay()
    ensures stays { (g : Group) (m : Member) (number now : ℕ)
        → find (is_numbered number) g.roster.members ≡ Some m
        → ((m.waits || m.syncs) ≡ true) ⊎ (now < m.ends)
        → has number (after_tick g now).roster.members ≡ true }
    ensures heard { (g : Group) (m : Member) (number now : ℕ) (generation : ℤ)
        → is_present g number generation ≡ true
        → find (is_numbered number) (after_heartbeat g number generation now).roster.members
        ≡ Some m → m.ends ≡ later now m.session }
    ensures asks { (g : Group) (m : Member) (number now : ℕ) (generation : ℤ)
        (assignments : List Assignment)
        → asks g number generation ≡ true → takes g number generation ≡ false
        → find (is_numbered number)
        (after_sync g number generation assignments now).roster.members ≡ Some m
        → m.syncs ≡ true }
    ensures assigned { (g : Group) (m : Member) (leader number now : ℕ) (generation : ℤ)
        (assignments : List Assignment) → takes g leader generation ≡ true
        → find (is_numbered number)
        (after_sync g leader generation assignments now).roster.members ≡ Some m
        → (m.syncs ≡ false) × (m.ends ≡ later now m.session) }
    ensures ended { (g : Group) (m : Member) (number now : ℕ)
        → find (is_numbered number) (after_end g number now).roster.members ≡ Some m
        → (m.waits || m.syncs) ≡ false }
{}

/// A law: a request with an id is that of the member to which this id was answered, byte for byte.
pub fn members_are_known_by_their_ids()
    ensures { (g : Group) (id : List ℕ) (number : ℕ) → IsGroup g
        → number_of g id ≡ Some number → id_of g number ≡ id }
{}

/// A law: the id of a member says its number, and no other: two members have different ids.
pub fn member_ids_say_numbers()
    ensures its { (client : List ℕ) (number : ℕ) → IsIdOf (member_id_of client number) number }
    ensures one { (id : List ℕ) (m n : ℕ) → m < 2 ^ 32 → n < 2 ^ 32
        → IsIdOf id m → IsIdOf id n → m ≡ n }
{}
