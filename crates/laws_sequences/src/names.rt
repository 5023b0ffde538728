//! What the names of sequences and of their replicas tell.

ghost use Rattle.laws_sequences.specs.NameLaws.{ReplicaNamesTell, SequenceNamesTell};

/// The name of a sequence tells its source, group and index.
pub fn sequence_names_tell()
    ensures { SequenceNamesTell }
{}

/// The id of a replica tells its sequence's source, group and index, and its own number.
pub fn replica_names_tell()
    ensures { ReplicaNamesTell }
{}
