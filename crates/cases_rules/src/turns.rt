//! Whose turn it is to publish on a supervisor's stream.

ghost use Rattle.cases_rules.specs.TurnCases.{OnlyClosedIsPublished, EndedReplicaPublishes, RangesOfTheSequence, GroupsPublishApart, OthersBesideTheStream, IdsOfTheSequence, InsertsOfTheSequence, PublishedOnce, PartitionsOfOthersStay};

/// A sequence is published when it is closed.
pub fn only_closed_is_published()
    ensures { OnlyClosedIsPublished }
{}

/// A replica that has ended publishes no more, but is answered where another has published.
pub fn ended_replica_publishes()
    ensures { EndedReplicaPublishes }
{}

/// Its ranges are exactly from its starts to its ends.
pub fn ranges_of_the_sequence()
    ensures { RangesOfTheSequence }
{}

/// Each group has a turn of its own.
pub fn groups_publish_apart()
    ensures { GroupsPublishApart }
{}

/// A task of no sequence doesn't publish on the stream, but beside it.
pub fn others_beside_the_stream()
    ensures { OthersBesideTheStream }
{}

/// Ids and ranges of a sequence are published together.
pub fn ids_of_the_sequence()
    ensures { IdsOfTheSequence }
{}

/// An insert or a replace may publish a sequence too.
pub fn inserts_of_the_sequence()
    ensures { InsertsOfTheSequence }
{}

/// A published sequence publishes no more.
pub fn published_once()
    ensures { PublishedOnce }
{}

/// A publish moves the offsets of its sequence's partitions alone.
pub fn partitions_of_others_stay()
    ensures { PartitionsOfOthersStay }
{}
