//! Laws of walks, each the contract of a function that does nothing.
ghost use Rattle.regen_walk.specs.Laws.{ExplainedHaveItems, FrontsAreExplained, OneIsRegenerated, SameRecordsSameWalk, ShortestEndsWithRecord};

/// Two walks with the same records are one, up to and with the move that has the last of them. That holds of any records, whether a
/// run gave them or not.
pub fn walks_with_the_same_records_are_one()
    ensures { SameRecordsSameWalk }
{}

/// Up to and with the move that has the last record, a walk is the shortest with its records.
pub fn the_shortest_walk_ends_with_a_record()
    ensures { ShortestEndsWithRecord }
{}

/// Records that are explained have items, and no others.
pub fn explained_records_have_one_list_of_items()
    ensures { ExplainedHaveItems }
{}

/// Where records are explained, the first so many of them are too.
pub fn fronts_of_explained_records_are_explained()
    ensures { FrontsAreExplained }
{}

/// The bytes of an event file give back one list of items, and one reason why there are no more.
pub fn bytes_give_back_one_trace()
    ensures { OneIsRegenerated }
{}
