//! Appending.

ghost use Rattle.cases_rules.specs.AppendCases.{OnlyRunningAppends, ForeignIdIsTold, CopyIsNotAppended, MembersAppend, RepeatedAppend, OtherListsAreNoRepeat, OtherGroupIsNoRepeat, IdsBeforeRanges, SharedAppends, EachRootThenItsCopy, UpgradeRowsOfAppend, UpgradeRowsWhereNotReplaced};

/// A task that is there and runs appends, and no other.
pub fn only_running_appends()
    ensures { OnlyRunningAppends }
{}

/// The first id that isn't the task's is told.
pub fn foreign_id_is_told()
    ensures { ForeignIdIsTold }
{}

/// A copy of a pending isn't appended by itself.
pub fn copy_is_not_appended()
    ensures { CopyIsNotAppended }
{}

/// Who has left a lock doesn't append its ids any more, and who is still a member does.
pub fn members_append()
    ensures { MembersAppend }
{}

/// A repeated append is answered as the first, changes nothing and brings nothing back.
pub fn repeated_append()
    ensures { RepeatedAppend }
{}

/// Other ids or ranges make another publish.
pub fn other_lists_are_no_repeat()
    ensures { OtherListsAreNoRepeat }
{}

/// Another group, or the same group of another source, repeats nothing.
pub fn other_group_is_no_repeat()
    ensures { OtherGroupIsNoRepeat }
{}

/// Ids that aren't allocated are told before ranges that don't fit.
pub fn ids_before_ranges()
    ensures { IdsBeforeRanges }
{}

/// Holders of shared locks append into one chunk.
pub fn shared_appends()
    ensures { SharedAppends }
{}

/// The segments of an append: of each id its own and then its copies.
pub fn each_root_then_its_copy()
    ensures { EachRootThenItsCopy }
{}

/// What is appended under a replacing lock has an upgrade row until that ends or is revoked.
pub fn upgrade_rows_of_append()
    ensures { UpgradeRowsOfAppend }
{}

/// Where the lock's replacement is there already, an append has no upgrade row.
pub fn upgrade_rows_where_not_replaced()
    ensures { UpgradeRowsWhereNotReplaced }
{}
